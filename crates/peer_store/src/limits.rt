//! Limits of stores.

/// The greatest place of a store's last gate at which a step may be put, in bytes.
pub const MAX_GATE: u64 = 1_073_741_000;
