//! Limits.

/// How many step lines a watch takes. With a look at the text in front, and one behind each step, they fit into a run.
pub const MAX_LINES: usize = 524_287;
