//! Histories.
ghost use Rattle.std.specs.Prelude.{◌≡◌, ◌≤◌, length, MatchOption};
ghost use Rattle.peer_core.specs.Peer.{fresh_peer};
ghost use Rattle.peer_lock.specs.Run.{caller_at, StepAt, recorded};
ghost use Rattle.peer_lock.specs.KeptAnswers.{answers_along, AnswerAt};

use crate::call::Call;
use crate::kept_answer::KeptAnswer;
use peer_step::PackedStep;
use std::marker::Model;

/// The site and the run of a shared peer that was closed: its steps in their order, each with the number of the pass that made
/// it, and beside them what is kept of their answers.
#[derive(Drop)]
pub struct History {
    site: u16,
    run: Vec<Call>,
    answers: Vec<KeptAnswer>,
}

impl Model for History {
    ghost use Rattle.std.specs.Prelude.{◌≡◌};
    ghost use Rattle.peer_core.specs.Peer.{fresh_peer};
    ghost use Rattle.peer_lock.specs.Run.{Recorded, recorded};
    ghost use Rattle.peer_lock.specs.KeptAnswers.{answers_along};

    ghost Value = { Recorded };

    ghost view = { λ h. recorded h.site h.run.items };

    ghost invariant = { λ h. h.answers.items ≡ answers_along (fresh_peer h.site) h.run.items };
}

impl History {
    pub(crate) fn of(site: u16, run: Vec<Call>, answers: Vec<KeptAnswer>) -> History
        requires { answers.items ≡ answers_along (fresh_peer site) run.items }
        ensures { result ≡ recorded site run.items }
    {
        History { site, run, answers }
    }

    /// The site of the peer.
    pub fn site(&self) -> u16
        ensures { result ≡ self.now.site }
    {
        self.site
    }

    /// How many steps it has.
    pub fn len(&self) -> u64
        ensures { result ≡ length self.now.run }
    {
        self.run.len() as u64
    }

    /// The number of the pass that made the step at a place, from 0.
    pub fn caller(&self, i: u64) -> Option<u32>
        ensures { result ≡ caller_at self.now.run i }
    {
        self.run.get(i as usize).map(|call| call.caller)
    }

    /// The step at a place, from 0, packed: its value is the step.
    pub fn step_at(&self, i: u64) -> Option<&PackedStep>
        ensures { MatchOption result (length self.now.run ≤ i) (λ s. StepAt self.now.run i s.now) }
    {
        self.run.get(i as usize).map(|call| &call.step)
    }

    /// What is kept of the answer to the step at a place, from 0.
    pub fn answer(&self, i: u64) -> Option<&KeptAnswer>
        ensures { MatchOption result (length self.now.run ≤ i) (λ answer. AnswerAt self.now i answer.now) }
    {
        self.answers.get(i as usize)
    }
}
