//! The worker with the steps of the caller.
ghost use Rattle.std.specs.Prelude.{◌≡◌};
ghost use Rattle.peer_lock.specs.Answers.{IsSame};
ghost use Rattle.link_run.specs.Worked.{MakesOwn};

use peer_lock::{Pass, SharedPeer, StepFail};
use peer_step::Step;
use std::alloc::Global;
use std::sync::Wait;
use std::thread::Threads;

/// How the steps of the caller ended.
#[derive(Clone, Copy, Debug, PartialEq, Eq)]
pub enum OwnEnd {
    /// All were made.
    Done,
    /// The run was full.
    RunFull,
    /// Memory was wanting.
    NoMemory,
}

/// Makes all steps of a list, in their order, until the run is full or memory is wanting.
///
/// It waits for the gate of the shared peer, and takes the time of the steps.
pub(crate) fn make_own<R: Threads + Wait + Sync>(
    rt: &R,
    alloc: Global,
    shared: &SharedPeer,
    mut pass: Pass,
    steps: &[Step],
) -> (Pass, OwnEnd)
    requires { pass.table ≡ shared.now }
    ensures same { IsSame pass result.0 }
    ensures mine { MakesOwn pass.view result.0.view steps.now result.1 }
{
    for step in steps {
        let Ok(copy) = step.copied() else {
            return (pass, OwnEnd::NoMemory);
        };
        match shared.step(rt, alloc, &mut pass, copy) {
            Ok(answer) => drop(answer),
            Err(StepFail::RunFull) => return (pass, OwnEnd::RunFull),
            Err(StepFail::NoMemory) => return (pass, OwnEnd::NoMemory),
        }
    }
    (pass, OwnEnd::Done)
}
