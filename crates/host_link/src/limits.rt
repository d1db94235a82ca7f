//! Limits of a link.

/// The version of the protocol.
pub const PROTOCOL: u32 = 1;

/// How many bytes a message that comes may have.
pub const MAX_MESSAGE: usize = 65_536;

/// After how many bytes of frames a message that goes ends.
pub const FRAMES_AT_ONCE: usize = 32_768;

/// How many bytes the words of a caret may have.
pub const MAX_CARET: usize = 200;

/// How many scalar values a name may have.
pub const MAX_NAME: usize = 40;

/// How many bytes the words of a close may have: a control frame has 125, of which two are the code's.
pub const MAX_REASON: usize = 123;
