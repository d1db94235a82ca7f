//! The steps of a run.

use peer_step::{Answer, PackedStep};

/// A step that was counted, and the number of the pass that made it.
#[derive(Drop)]
pub struct Call {
    pub caller: u32,
    pub step: PackedStep,
}

/// What a pass learns of its step that was counted.
#[derive(Drop)]
pub(crate) struct CountedStep {
    pub(crate) answer: Answer,
    /// How many steps the run has with it.
    pub(crate) count: u64,
}
