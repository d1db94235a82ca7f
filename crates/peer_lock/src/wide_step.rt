//! The step.
ghost use Rattle.std.specs.Prelude.{◌≡◌, IfOk, OnOk, OnErr, IsOk, IsTrue};
ghost use Rattle.peer_core.specs.Answers.{answer_of};
ghost use Rattle.peer_core.specs.After.{peer_after, takes_none};

use crate::many_threads::ManyThreads;
use element_name::NoMemory;
use peer_core::Peer;
use peer_step::{Answer, Step};
use std::alloc::Global;
use std::thread::Threads;

/// Makes a step of the peer as `Peer::step` does, and sweeps on several threads.
///
/// It has every clause of that call but that it returns. The sweep's list and verdicts come from the allocator: where
/// these are wanting, the sweep is made without them, and the step is answered as ever.
pub fn step_wide<R: Threads + Sync>(
    rt: &R,
    alloc: Global,
    peer: &mut Peer,
    step: Step,
) -> Result<Answer, NoMemory>
    ensures answer { IfOk result (λ answer. answer ≡ answer_of peer.old step) }
    ensures after { OnOk result (peer.new ≡ peer_after peer.old step) }
    ensures unchanged { OnErr result (peer.new ≡ peer.old) }
    ensures takes_none { IsTrue (takes_none (answer_of peer.old step)) → IsOk result }
{
    peer.step_by(step, &ManyThreads::new(rt, alloc))
}
