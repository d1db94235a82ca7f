//! The limits of an input.

/// How many bytes of an input are answered at most: 64 MiB. One more is read, to see whether there are more.
pub const MAX_INPUT: usize = 67_108_864;

/// How many bytes are asked for at once at most: 64 KiB.
pub const MAX_CHUNK: usize = 65_536;

/// How many bytes of lines are gathered before they are offered to a sink: 64 KiB.
pub const BATCH_BYTES: usize = 65_536;
