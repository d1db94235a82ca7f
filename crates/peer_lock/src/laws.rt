//! Laws of runs.
ghost use Rattle.std.specs.Prelude.{◌≡◌};
ghost use Rattle.peer_lock.specs.Laws.{AnswerLaw, StepLaw, FullLaw};

use crate::limits::{MAX_PASSES, MAX_RUN};

/// A step that was answered gives its caller one more answer in the run, and the answer is this one: what the plain peer
/// answers to the caller's steps along the run grows by it alone.
pub fn one_more_answer()
    ensures { AnswerLaw }
{}

/// A run whose callers are all below a number has as many steps as these have together.
pub fn all_steps()
    ensures { StepLaw }
{}

/// A pass that closes a run, and has seen fewer steps of all its callers than a run may have, never knew a full one; nor did
/// a pass that was joined into it, which knew no more.
pub fn never_full()
    ensures { FullLaw }
{}

/// A run has at most 1,048,576 steps, and a shared peer at most 64 passes.
pub fn limits()
    ensures run { MAX_RUN ≡ 1048576 }
    ensures passes { MAX_PASSES ≡ 64 }
{}
