//! Writing the report of a run.
ghost use Rattle.std.specs.Prelude.{◌≡◌, ◌≢◌, [], ◌++◌, ℕ, List, OnOk, false};
ghost use Rattle.line_engine.specs.Engine.{StatusCause, Says};
ghost use Rattle.peer_core.specs.Peer.{fresh_peer};
ghost use Rattle.peer_core.specs.After.{peer_after};
ghost use Rattle.peer_core.specs.Answers.{answer_of};
ghost use Rattle.peer_lock.specs.Run.{call, peer_after_run};
ghost use Rattle.peer_lock.specs.KeptAnswers.{kept_answer_of};
ghost use Rattle.report_text.specs.Closing.{closing_lines};
ghost use Rattle.report_run.specs.Report.{call_line, call_lines, report_from, report, report_output};
ghost use Rattle.report_run.specs.Kept.{ShowsNothing};
ghost use Rattle.report_run.specs.Telling.{Gathers, Tells, TellsCause};

use crate::lines::{put_call, put_kept_call, put_run};
use edit_io::Sink;
use line_engine::{BATCH_BYTES, Status, say};
use peer_core::Peer;
use peer_lock::{History, KeptAnswer};
use peer_step::PackedStep;
use report_text::closing_lines_of;
use std::alloc::Global;

// Offers lines to the sink, and empties the buffer.
fn tell<K: Sink>(lines: &mut Vec<u8>, sink: &mut K) -> Result<(), Status>
    ensures tells { Tells (K.written sink.old) (K.written sink.new) lines.old.items result }
    ensures empty { lines.new.items ≡ [] }
    ensures cause { TellsCause (K.faults sink.old) (K.faults sink.new) result }
{
    let status = say(sink, lines, Status::Done);
    lines.clear();
    match status {
        Status::Done => Ok(()),
        status => Err(status),
    }
}

// Offers the lines that were gathered once they are many.
fn tell_many<K: Sink>(lines: &mut Vec<u8>, sink: &mut K) -> Result<(), Status>
    ensures gathers { Gathers (K.written sink.old) (K.written sink.new) lines.old.items lines.new.items result }
    ensures cause { TellsCause (K.faults sink.old) (K.faults sink.new) result }
{
    if lines.len() < BATCH_BYTES {
        return Ok(());
    }
    tell(lines, sink)
}

// Makes a step, and gathers its line.
fn tell_call<K: Sink>(
    alloc: Global,
    peer: &mut Peer,
    caller: u32,
    step: &PackedStep,
    out: &mut Vec<u8>,
    sink: &mut K,
) -> Result<(), Status>
    ensures gathers { Gathers (K.written sink.old) (K.written sink.new)
        (out.old.items ++ call_line peer.old (call caller step.now)) out.new.items result }
    ensures peer { OnOk result (peer.new ≡ peer_after peer.old step.now) }
    ensures cause { TellsCause (K.faults sink.old) (K.faults sink.new) result }
{
    let Ok(step) = step.copied() else {
        return Err(Status::NoMemory);
    };
    if let Err(_) = put_call(alloc, peer, caller, step, out) {
        return Err(Status::NoMemory);
    }
    tell_many(out, sink)
}

// Makes the steps of a run, and gathers their lines.
fn tell_calls<K: Sink>(
    alloc: Global,
    peer: &mut Peer,
    history: &History,
    out: &mut Vec<u8>,
    sink: &mut K,
) -> Result<(), Status>
    ensures gathers { Gathers (K.written sink.old) (K.written sink.new)
        (out.old.items ++ call_lines peer.old history.now.run) out.new.items result }
    ensures peer { OnOk result (peer.new ≡ peer_after_run peer.old history.now.run) }
    ensures cause { TellsCause (K.faults sink.old) (K.faults sink.new) result }
{
    for i in 0..history.len() {
        let Some(caller) = history.caller(i) else {
            unreachable!()
        };
        let Some(step) = history.step_at(i) else {
            unreachable!()
        };
        tell_call(alloc, peer, caller, step, out, sink)?;
    }
    Ok(())
}

// Tells the lines that were gathered, the text, and what is held.
fn tell_closing<K: Sink>(
    alloc: Global,
    peer: &mut Peer,
    out: &mut Vec<u8>,
    sink: &mut K,
) -> Result<(), Status>
    ensures tells { Tells (K.written sink.old) (K.written sink.new) (out.old.items ++ closing_lines peer.old) result }
    ensures cause { TellsCause (K.faults sink.old) (K.faults sink.new) result }
{
    if let Err(_) = closing_lines_of(alloc, peer, out) {
        return Err(Status::NoMemory);
    }
    tell(out, sink)
}

// Tells how many steps a run has, and then all of it from this peer on.
fn tell_from<K: Sink>(
    alloc: Global,
    peer: &mut Peer,
    history: &History,
    sink: &mut K,
) -> Result<(), Status>
    ensures tells { Tells (K.written sink.old) (K.written sink.new) (report_from peer.old history.now.run) result }
    ensures cause { TellsCause (K.faults sink.old) (K.faults sink.new) result }
{
    let mut out = Vec::new(alloc);
    if let Err(_) = put_run(history.len(), &mut out) {
        return Err(Status::NoMemory);
    }
    tell_calls(alloc, peer, history, &mut out, sink)?;
    tell_closing(alloc, peer, &mut out, sink)
}

// Tells all of it by a fresh peer, which makes the steps once more.
fn tell_again<K: Sink>(alloc: Global, history: &History, sink: &mut K) -> Result<(), Status>
    ensures tells { Tells (K.written sink.old) (K.written sink.new) (report history.now.site history.now.run) result }
    ensures cause { TellsCause (K.faults sink.old) (K.faults sink.new) result }
{
    match Peer::new(alloc, history.site()) {
        Ok(mut peer) => {
            let told = tell_from(alloc, &mut peer, history, sink);
            drop(peer);
            told
        }
        Err(_) => Err(Status::NoMemory),
    }
}

// Gathers the line of a step, by what is kept of its answer.
fn tell_kept_call<K: Sink>(
    alloc: Global,
    caller: u32,
    step: &PackedStep,
    answer: &KeptAnswer,
    out: &mut Vec<u8>,
    sink: &mut K,
) -> Result<(), Status>
    requires { answer.now ≢ KeptAnswer.Shown }
    ensures gathers { (p : _) → answer.now ≡ kept_answer_of (answer_of p step.now)
        → Gathers (K.written sink.old) (K.written sink.new) (out.old.items ++ call_line p (call caller step.now)) out.new.items result }
    ensures cause { TellsCause (K.faults sink.old) (K.faults sink.new) result }
{
    let Ok(step) = step.copied() else {
        return Err(Status::NoMemory);
    };
    if let Err(_) = put_kept_call(alloc, caller, &step, answer, out) {
        return Err(Status::NoMemory);
    }
    tell_many(out, sink)
}

// Gathers the lines of all steps, by what is kept of their answers.
fn tell_kept_calls<K: Sink>(
    alloc: Global,
    history: &History,
    out: &mut Vec<u8>,
    sink: &mut K,
) -> Result<(), Status>
    requires { ShowsNothing history.now }
    ensures gathers { Gathers (K.written sink.old) (K.written sink.new)
        (out.old.items ++ call_lines (fresh_peer history.now.site) history.now.run) out.new.items result }
    ensures cause { TellsCause (K.faults sink.old) (K.faults sink.new) result }
{
    for i in 0..history.len() {
        let Some(caller) = history.caller(i) else {
            unreachable!()
        };
        let Some(step) = history.step_at(i) else {
            unreachable!()
        };
        let Some(answer) = history.answer(i) else {
            unreachable!()
        };
        tell_kept_call(alloc, caller, step, answer, out, sink)?;
    }
    Ok(())
}

// Tells all of it by what is kept, and by the peer that the run led to.
fn tell_kept<K: Sink>(
    alloc: Global,
    peer: &mut Peer,
    history: &History,
    sink: &mut K,
) -> Result<(), Status>
    requires shows { ShowsNothing history.now }
    requires peer { peer.old ≡ peer_after_run (fresh_peer history.now.site) history.now.run }
    ensures tells { Tells (K.written sink.old) (K.written sink.new) (report history.now.site history.now.run) result }
    ensures cause { TellsCause (K.faults sink.old) (K.faults sink.new) result }
{
    let mut out = Vec::new(alloc);
    if let Err(_) = put_run(history.len(), &mut out) {
        return Err(Status::NoMemory);
    }
    tell_kept_calls(alloc, history, &mut out, sink)?;
    tell_closing(alloc, peer, &mut out, sink)
}

// Whether the answer is a text, which isn't kept.
fn is_text(answer: &KeptAnswer) -> bool
    ensures { result ≡ false → answer.now ≢ KeptAnswer.Shown }
{
    matches!(answer, KeptAnswer::Shown)
}

// Whether a step of the run is answered by a text.
fn shows(history: &History) -> bool
    ensures { result ≡ false → ShowsNothing history.now }
{
    for i in 0..history.len() {
        let Some(answer) = history.answer(i) else {
            unreachable!()
        };
        if is_text(answer) {
            return true;
        }
    }
    false
}

// Tells all of it, by what is kept or once more.
fn tell_all<K: Sink>(
    alloc: Global,
    peer: Peer,
    history: &History,
    sink: &mut K,
) -> Result<(), Status>
    requires { peer ≡ peer_after_run (fresh_peer history.now.site) history.now.run }
    ensures tells { Tells (K.written sink.old) (K.written sink.new) (report history.now.site history.now.run) result }
    ensures cause { TellsCause (K.faults sink.old) (K.faults sink.new) result }
{
    let mut peer = peer;
    if shows(history) {
        drop(peer);
        return tell_again(alloc, history, sink);
    }
    let told = tell_kept(alloc, &mut peer, history, sink);
    drop(peer);
    told
}

/// Writes the report of a history: its steps, each with the answer that the plain peer of the site gives it there,
/// then the text, and what is held. The peer is the one that the run led to, as closing a shared peer gives it.
///
/// The answers are those that were kept with the run. So it takes the time of writing them, and of showing the text, and the
/// memory of a step, a line and 64 KiB of lines. Where a step asks for the text, which isn't kept, all steps are made once more
/// on a fresh peer of the site. It takes their time then, and the memory of that peer; the other one is let go before.
///
/// Lines are gathered, and then offered to the sink one by one.
pub fn report<K: Sink>(alloc: Global, peer: Peer, history: &History, sink: &mut K) -> Status
    requires { peer ≡ peer_after_run (fresh_peer history.now.site) history.now.run }
    ensures says { (written : List ℕ) × Says (K.written sink.old) (K.written sink.new) result (report_output history.now.site history.now.run) written }
    ensures cause { StatusCause (K.faults sink.old) (K.faults sink.new) result Status.WriteFault }
{
    match tell_all(alloc, peer, history, sink) {
        Ok(()) => Status::Done,
        Err(status) => status,
    }
}
