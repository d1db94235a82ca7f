//! Who runs a step.
ghost use Rattle.std.specs.Prelude.{◌≡◌};
ghost use Rattle.race_run.specs.Lists.{worker_of};

use peer_step::Step;

/// A worker of a race.
#[derive(Clone, Copy, Debug, PartialEq, Eq)]
pub enum Worker {
    /// It edits, and looks at what is there.
    Editor,
    /// It takes what arrives.
    Receiver,
    /// It changes the policy.
    Administrator,
}

/// The worker that runs a step.
pub fn worker_of(step: &Step) -> Worker
    ensures { result ≡ worker_of step.now }
{
    match step {
        Step::Edit(_) | Step::Look { .. } | Step::Show => Worker::Editor,
        Step::Receive(_) | Step::Settle => Worker::Receiver,
        Step::Administer(_) | Step::ValidateNext => Worker::Administrator,
    }
}
