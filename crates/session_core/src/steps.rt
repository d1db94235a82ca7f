//! The steps of a session on the shared peer.
ghost use Rattle.std.specs.Prelude.{◌≡◌, ℕ, List, true};
ghost use Rattle.std.specs.declared.option.Option.{Option};
ghost use Rattle.session_core.specs.Events.{SessionState, Mode, ReceivesItem, Listens, in_phase, item_in};
ghost use Rattle.session_core.specs.Session.{side};
ghost use Rattle.session_core.specs.Pieces.{KeepsPass, StepsTo, MakesStep, LooksAt};
ghost use Rattle.session_core.specs.Clearing.{TakenOnce, clearing, after_clearing};

use crate::backlog::Backlog;
use crate::fault::SessionFault;
use edit_message::Message;
use peer_lock::{Pass, SharedPeer, StepFail};
use peer_step::{Answer, Step};
use std::alloc::Global;
use std::sync::Wait;
use std::thread::Threads;

// Makes a step.
fn make<R: Threads + Wait + Sync>(
    rt: &R,
    alloc: Global,
    shared: &SharedPeer,
    pass: &mut Pass,
    step: Step,
) -> Result<Answer, SessionFault>
    requires { pass.old.table ≡ shared.now }
    ensures keeps { KeepsPass pass.old pass.new result }
    ensures makes { MakesStep pass.old pass.new step result }
{
    match shared.step(rt, alloc, pass, step) {
        Ok(answer) => Ok(answer),
        Err(StepFail::RunFull) => Err(SessionFault::RunFull),
        Err(StepFail::NoMemory) => Err(SessionFault::NoMemory),
    }
}

// The item that was found, or that there is none; none where the answer is to another step than a look.
fn item_of(answer: Answer) -> Option<Option<Message>>
    ensures { result ≡ item_in answer }
{
    match answer {
        Answer::Item(item) => Some(item),
        _ => None,
    }
}

/// Looks at the journal's item at the mark.
pub(crate) fn look<R: Threads + Wait + Sync>(
    rt: &R,
    alloc: Global,
    shared: &SharedPeer,
    pass: &mut Pass,
    mark: u32,
) -> Result<Option<Message>, SessionFault>
    requires { pass.old.table ≡ shared.now }
    ensures keeps { KeepsPass pass.old pass.new result }
    ensures looks { LooksAt pass.old pass.new mark result }
{
    let answer = make(rt, alloc, shared, pass, Step::Look { from: mark })?;
    match item_of(answer) {
        Some(item) => Ok(item),
        None => unreachable!(),
    }
}

// Takes the next of what is left to do. True where nothing was left.
fn take_next<R: Threads + Wait + Sync>(
    rt: &R,
    alloc: Global,
    shared: &SharedPeer,
    pass: &mut Pass,
    backlog: Backlog,
) -> Result<bool, SessionFault>
    requires { pass.old.table ≡ shared.now }
    ensures keeps { KeepsPass pass.old pass.new result }
    ensures talk { (mode : Mode) (s : SessionState) (got sent : Option (List (List ℕ)))
        → TakenOnce mode backlog s (side pass.old got sent) (side pass.new got sent) result }
{
    let answer = make(rt, alloc, shared, pass, backlog.step())?;
    let cleared = backlog.is_cleared_by(&answer);
    drop(answer);
    Ok(cleared)
}

/// Takes what is left to do until nothing is left.
pub(crate) fn clear<R: Threads + Wait + Sync>(
    rt: &R,
    alloc: Global,
    shared: &SharedPeer,
    pass: &mut Pass,
    backlog: Backlog,
) -> Result<(), SessionFault>
    requires { pass.old.table ≡ shared.now }
    ensures keeps { KeepsPass pass.old pass.new result }
    ensures talk { StepsTo (clearing backlog) (λ mode s. after_clearing mode backlog true s) pass.old pass.new result }
{
    for _ in rt.forever() {
        let cleared = take_next(rt, alloc, shared, pass, backlog)?;
        if cleared {
            return Ok(());
        }
    }
    unreachable!()
}

/// Receives an item that came, and settles what is due by then.
pub(crate) fn take_item<R: Threads + Wait + Sync>(
    rt: &R,
    alloc: Global,
    shared: &SharedPeer,
    pass: &mut Pass,
    message: Message,
) -> Result<(), SessionFault>
    requires { pass.old.table ≡ shared.now }
    ensures keeps { KeepsPass pass.old pass.new result }
    ensures talk { StepsTo (ReceivesItem message) (λ mode s. in_phase Listens s) pass.old pass.new result }
{
    let answer = make(rt, alloc, shared, pass, Step::Receive(message))?;
    drop(answer);
    clear(rt, alloc, shared, pass, Backlog::Held)
}
