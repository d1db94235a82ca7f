//! What is left to do after a message that came.
ghost use Rattle.std.specs.Prelude.{◌≡◌};
ghost use Rattle.session_core.specs.Events.{is_issued};
ghost use Rattle.session_core.specs.Clearing.{next_step, is_cleared_by};

use peer_step::{Answer, Step};

/// What one kind of step takes from, one after another, until it finds nothing.
#[derive(Clone, Copy)]
pub(crate) enum Backlog {
    /// Messages that are held, and due.
    Held,
    /// Requests that wait for a validation.
    Unvalidated,
}

fn is_issued(answer: &Answer) -> bool
    ensures { result ≡ is_issued answer.now }
{
    matches!(answer, Answer::Issued(_, _))
}

impl Backlog {
    /// The step that takes the next.
    pub(crate) fn step(self) -> Step
        ensures { result ≡ next_step self }
    {
        match self {
            Backlog::Held => Step::Settle,
            Backlog::Unvalidated => Step::ValidateNext,
        }
    }

    /// Whether the answer says that nothing was left.
    pub(crate) fn is_cleared_by(self, answer: &Answer) -> bool
        ensures { result ≡ is_cleared_by self answer.now }
    {
        match self {
            Backlog::Held => answer.is_quiet(),
            Backlog::Unvalidated => !is_issued(answer),
        }
    }
}
