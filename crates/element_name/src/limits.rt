//! Limits that several crates share.

/// The greatest stamp of a name.
pub const MAX_STAMP: u64 = (1 << 48) - 1;

/// The greatest version of a policy, and so the greatest length of its log.
pub const MAX_VERSION: u32 = 16_383;
