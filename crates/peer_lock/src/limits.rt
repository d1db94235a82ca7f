//! Limits.

/// How many steps a run may have.
pub const MAX_RUN: usize = 1_048_576;

/// How many passes a shared peer may have.
pub const MAX_PASSES: u32 = 64;
