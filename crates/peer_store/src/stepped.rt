//! Steps that were made.
ghost use Rattle.std.specs.Prelude.{◌≡◌, ◌==◌, ◌||◌, not, length, IfOk, OnOk, OnErr, true, false};
ghost use Rattle.peer_core.specs.Answers.{answer_of};
ghost use Rattle.peer_core.specs.After.{peer_after};
ghost use Rattle.peer_store.specs.Steps.{changes};
ghost use Rattle.peer_store.specs.Store.{IsKeptIn};

use crate::spelled::step_record;
use element_name::NoMemory;
use peer_core::Peer;
use peer_disk::Records;
use peer_step::{Answer, Step};
use std::alloc::Global;

/// How many messages a peer has, and how many it holds.
#[derive(Clone, Copy)]
pub(crate) struct Counts {
    journal: u32,
    held: u32,
}

impl Counts {
    /// Those of the peer.
    pub(crate) fn of(peer: &Peer) -> Counts
        ensures { result ≡ record { journal = length peer.now.journal; held = length peer.now.held } }
    {
        Counts {
            journal: peer.journal_len(),
            held: peer.held_len(),
        }
    }

    /// Whether the peer's are others by now.
    pub(crate) fn changed(self, peer: &Peer) -> bool
        ensures { result ≡ (not (length peer.now.journal == self.journal) || not (length peer.now.held == self.held)) }
    {
        peer.journal_len() != self.journal || peer.held_len() != self.held
    }
}

/// A step that was made.
#[derive(Drop)]
pub(crate) struct Stepped {
    pub(crate) answer: Answer,
    // Whether it changed the peer.
    pub(crate) changed: bool,
}

/// Makes a step. It changed the peer where this has, or holds, another number of messages.
pub(crate) fn make_step(peer: &mut Peer, step: Step) -> Result<Stepped, NoMemory>
    ensures answer { IfOk result (λ s. s.answer ≡ answer_of peer.old step) }
    ensures changed { IfOk result (λ s. s.changed ≡ changes peer.old step) }
    ensures after { OnOk result (peer.new ≡ peer_after peer.old step) }
    ensures unchanged { OnErr result (peer.new ≡ peer.old) }
{
    let before = Counts::of(peer);
    let answer = peer.step(step)?;
    let changed = before.changed(peer);
    Ok(Stepped { answer, changed })
}

/// Makes a step, and keeps the record of one that changed the peer among those that aren't saved.
pub(crate) fn keep_step(
    alloc: Global,
    peer: &mut Peer,
    unsaved: &mut Records,
    step: Step,
) -> Result<Answer, NoMemory>
    ensures answer { IfOk result (λ answer. answer ≡ answer_of peer.old step) }
    ensures after { OnOk result (peer.new ≡ peer_after peer.old step) }
    ensures kept { OnOk result (changes peer.old step ≡ true → IsKeptIn unsaved.old unsaved.new peer.old step) }
    ensures quiet { OnOk result (changes peer.old step ≡ false → unsaved.new ≡ unsaved.old) }
    ensures unchanged { OnErr result ((peer.new ≡ peer.old) × (unsaved.new ≡ unsaved.old)) }
{
    let Some(body) = step_record(alloc, peer, &step)? else {
        let stepped = make_step(peer, step)?;
        return Ok(stepped.answer);
    };
    unsaved.push(&body)?;
    match make_step(peer, step) {
        Ok(stepped) => {
            if !stepped.changed {
                unsaved.take_back(&body);
            }
            Ok(stepped.answer)
        }
        Err(wanting) => {
            unsaved.take_back(&body);
            Err(wanting)
        }
    }
}
