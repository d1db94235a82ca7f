//! One worker.
ghost use Rattle.std.specs.Prelude.{◌≡◌, ◌≤◌, length};
ghost use Rattle.peer_lock.specs.declared.limits.TheConstants.{MAX_RUN};
ghost use Rattle.peer_lock.specs.Answers.{IsSame};
ghost use Rattle.race_run.specs.Work.{Works};

use crate::gate::Gate;
use peer_lock::{Pass, SharedPeer, StepFail};
use peer_step::PackedStep;
use std::alloc::Global;
use std::sync::Wait;
use std::thread::Threads;

/// How a worker ended.
#[derive(Clone, Copy, Drop)]
pub(crate) enum Ended {
    /// It made all its steps.
    Done,
    /// The run was full.
    Full,
    /// Memory was wanting.
    Short,
}

/// Makes all steps of a list, in their order, and tells the gate of each.
pub(crate) fn work<R: Threads + Wait + Sync, G: Gate>(
    rt: &R,
    alloc: Global,
    shared: &SharedPeer,
    mut pass: Pass,
    steps: &[PackedStep],
    gate: &G,
) -> (Pass, Ended)
    requires own { pass.table ≡ shared.now }
    requires few { length steps.now ≤ MAX_RUN }
    ensures same { IsSame pass result.0 }
    ensures works { Works pass.view result.0.view steps.now result.1 }
{
    let worker = pass.number();
    let mut made = 0;
    for step in steps {
        gate.pass(worker, made);
        let Ok(step) = step.copied() else {
            return (pass, Ended::Short);
        };
        match shared.step(rt, alloc, &mut pass, step) {
            Ok(answer) => drop(answer),
            Err(StepFail::RunFull) => return (pass, Ended::Full),
            Err(StepFail::NoMemory) => return (pass, Ended::Short),
        }
        made += 1;
    }
    gate.pass(worker, made);
    (pass, Ended::Done)
}
