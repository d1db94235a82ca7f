//! Limits of a request.

/// How many bytes the head of a request may have.
pub const MAX_HEAD: usize = 8_192;

/// How many fields it may have.
pub const MAX_HEADERS: usize = 64;
