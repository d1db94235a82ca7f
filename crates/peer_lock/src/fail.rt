//! Why a step was not made.

use peer_step::Step;

/// Why a try made no step. Nothing was counted, and the gate isn't with the pass.
#[derive(Drop)]
pub enum TryFail {
    /// Another pass had the gate. The step comes back.
    Busy(Step),
    /// The run has as many steps as it may.
    RunFull,
    /// No memory for the step, or for its place in the run.
    NoMemory,
}

/// Why no step was made. Nothing was counted, and the gate isn't with the pass.
#[derive(Clone, Copy, Debug, PartialEq, Eq)]
pub enum StepFail {
    /// The run has as many steps as it may.
    RunFull,
    /// No memory for the step, or for its place in the run.
    NoMemory,
}
