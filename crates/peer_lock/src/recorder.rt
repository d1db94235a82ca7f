//! A peer that records its steps: what the slot has. Its type keeps that the peer is what the record leads to.
ghost use Rattle.std.specs.Prelude.{◌≡◌, ◌++◌, ◌∷◌, ◌<◌, [], IfOk, OnOk, OnErr, length, vec_len, vec_capacity};
ghost use Rattle.peer_core.specs.Peer.{fresh_peer};
ghost use Rattle.peer_core.specs.Answers.{answer_of};
ghost use Rattle.peer_lock.specs.Run.{call, peer_after_run, recorded};

use crate::call::Call;
use crate::history::History;
use crate::kept_answer::KeptAnswer;
use element_name::NoMemory;
use peer_core::{Peer, Sweep};
use peer_step::{Answer, PackedStep, Step};
use std::alloc::Global;
use std::marker::Model;

/// A peer, its site, and the steps that it has made since it was fresh, each with its caller, and beside it what is kept of
/// its answer.
#[derive(Drop)]
pub struct Recorder {
    peer: Peer,
    site: u16,
    run: Vec<Call>,
    answers: Vec<KeptAnswer>,
}

impl Model for Recorder {
    ghost use Rattle.std.specs.Prelude.{◌≡◌};
    ghost use Rattle.peer_core.specs.Peer.{fresh_peer};
    ghost use Rattle.peer_lock.specs.Run.{Recorded, recorded, peer_after_run};
    ghost use Rattle.peer_lock.specs.KeptAnswers.{answers_along};

    ghost Value = { Recorded };

    ghost view = { λ r. recorded r.site r.run.items };

    ghost invariant = { λ r. (r.peer ≡ peer_after_run (fresh_peer r.site) r.run.items)
        × (r.answers.items ≡ answers_along (fresh_peer r.site) r.run.items) };
}

// A packed copy of a step, and room for its call and for its answer.
fn packed_copy(
    run: &mut Vec<Call>,
    answers: &mut Vec<KeptAnswer>,
    step: &Step,
) -> Result<PackedStep, NoMemory>
    ensures copy { IfOk result (λ copy. copy ≡ step.now) }
    ensures run { run.new.items ≡ run.old.items }
    ensures answers { answers.new.items ≡ answers.old.items }
    ensures run_room { OnOk result (vec_len run.new < vec_capacity run.new) }
    ensures answers_room { OnOk result (vec_len answers.new < vec_capacity answers.new) }
{
    run.reserve(1)?;
    answers.reserve(1)?;
    let copy = step.copied()?;
    PackedStep::of(*run.allocator(), copy)
}

impl Recorder {
    /// The fresh peer of a site, with an empty run.
    pub fn new(alloc: Global, site: u16) -> Result<Recorder, NoMemory>
        ensures { IfOk result (λ r. r ≡ recorded site []) }
    {
        Ok(Recorder {
            peer: Peer::new(alloc, site)?,
            site,
            run: Vec::new(alloc),
            answers: Vec::new(alloc),
        })
    }

    pub fn len(&self) -> usize
        ensures { result ≡ length self.now.run }
    {
        self.run.len()
    }

    /// Makes one step and records it, with its answer. The room for the record is taken before the step is made: behind it
    /// memory is taken only for a copy of a message that the answer gives, and such a step has left the peer as it was.
    pub fn make<W: Sweep>(&mut self, caller: u32, step: Step, sweep: &W) -> Result<Answer, NoMemory>
        ensures answer { IfOk result (λ a. a ≡ answer_of (peer_after_run (fresh_peer self.old.site) self.old.run) step) }
        ensures ok { OnOk result (self.new ≡ recorded self.old.site (self.old.run ++ call caller step ∷ [])) }
        ensures err { OnErr result (self.new ≡ self.old) }
    {
        let copy = packed_copy(&mut self.run, &mut self.answers, &step)?;
        let answer = self.peer.step_by(step, sweep)?;
        let kept = KeptAnswer::of(*self.answers.allocator(), &answer)?;
        self.run.push_reserved(Call { caller, step: copy });
        self.answers.push_reserved(kept);
        Ok(answer)
    }

    /// The peer, and its history.
    pub fn into_parts(self) -> (Peer, History)
        ensures peer { result.0 ≡ peer_after_run (fresh_peer self.site) self.run }
        ensures history { result.1 ≡ self }
    {
        let Recorder {
            peer,
            site,
            run,
            answers,
        } = self;
        (peer, History::of(site, run, answers))
    }
}
