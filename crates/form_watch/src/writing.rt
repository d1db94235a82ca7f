//! The worker that writes.
//!
//! The run has room for all steps of a watch: once it is closed it is proved that the worker never met a full one.
ghost use Rattle.std.specs.Prelude.{◌≡◌, ◌≤◌, [], ◌∷◌, length, IfOk, IfErr, OnOk};
ghost use Rattle.peer_step.specs.declared.answer.Answer.{Answer};
ghost use Rattle.peer_lock.specs.Answers.{IsSame, Stepped};
ghost use Rattle.form_watch.specs.Run.{each_shown};
ghost use Rattle.form_watch.specs.Workers.{IsCurrent, Publishing, StopsShort};

use crate::limits::MAX_LINES;
use peer_lock::{Pass, SharedPeer, StepFail};
use peer_step::Step;
use race_run::Gate;
use screen_read::{Screen, ScreenFail};
use std::alloc::Global;
use std::sync::Wait;
use std::thread::Threads;

/// The number under which the worker passes the gate.
const WRITER: u32 = 0;

// Makes a copy of a step.
fn make<R: Threads + Wait + Sync>(
    rt: &R,
    alloc: Global,
    shared: &SharedPeer,
    pass: &mut Pass,
    step: &Step,
) -> Result<(), ScreenFail>
    requires { pass.old.table ≡ shared.now }
    ensures same { IsSame pass.old pass.new }
    ensures made { OnOk result ((answer : Answer) × Stepped pass.old.view step.now answer pass.new.view) }
    ensures stopped { IfErr result (StopsShort pass.old [] pass.new) }
{
    let Ok(copy) = step.copied() else {
        return Err(ScreenFail::NoMemory);
    };
    match shared.step(rt, alloc, pass, copy) {
        Ok(answer) => {
            drop(answer);
            Ok(())
        }
        Err(StepFail::RunFull) => Err(ScreenFail::RunFull),
        Err(StepFail::NoMemory) => Err(ScreenFail::NoMemory),
    }
}

// Makes a step, and publishes the page after it.
fn publish_step<'a, R: Threads + Wait + Sync>(
    rt: &R,
    alloc: Global,
    shared: &SharedPeer,
    pass: &mut Pass,
    screen: &mut Screen<'a, R>,
    step: &Step,
) -> Result<(), ScreenFail>
    requires own { pass.old.table ≡ shared.now }
    requires current { IsCurrent screen.old pass.old }
    ensures published { OnOk result (Publishing screen.old pass.old (step.now ∷ []) screen.new pass.new) }
    ensures stopped { IfErr result (StopsShort pass.old (each_shown (step.now ∷ [])) pass.new) }
{
    make(rt, alloc, shared, pass, step)?;
    match screen.publish(rt, alloc, shared, pass) {
        Ok(_) => Ok(()),
        Err(fail) => Err(fail),
    }
}

/// Makes all steps of a list, in their order, publishes the page after each, and tells the gate of each step, and at the
/// end how many they are. Where one fails it gives the pass, and why.
pub(crate) fn publish_all<'a, R: Threads + Wait + Sync, G: Gate>(
    rt: &R,
    alloc: Global,
    shared: &SharedPeer,
    mut pass: Pass,
    mut screen: Screen<'a, R>,
    steps: &[Step],
    gate: &G,
) -> Result<(Pass, Screen<'a, R>), (Pass, ScreenFail)>
    requires own { pass.table ≡ shared.now }
    requires current { IsCurrent screen pass }
    requires few { length steps.now ≤ MAX_LINES }
    ensures published { IfOk result (λ r. Publishing screen.entry pass steps.now r.1 r.0) }
    ensures stopped { IfErr result (λ r. StopsShort pass (each_shown steps.now) r.0 r.1) }
{
    let mut made = 0;
    for step in steps {
        gate.pass(WRITER, made);
        match publish_step(rt, alloc, shared, &mut pass, &mut screen, step) {
            Ok(()) => made += 1,
            Err(fail) => return Err((pass, fail)),
        }
    }
    gate.pass(WRITER, made);
    Ok((pass, screen))
}
