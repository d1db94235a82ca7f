//! Steps that are put, and answered as soon as they stand.
ghost use Rattle.std.specs.Prelude.{◌≡◌, ◌⊎◌, ◌∷◌, [], ℕ, List, None, false, take, IfOk, IfErr, OnOk, OnErr};
ghost use Rattle.std.specs.declared.option.Option.{Option};
ghost use Rattle.std.specs.Io.KnownBytes.{Appends};
ghost use Rattle.line_engine.specs.Engine.{Reads};
ghost use Rattle.peer_core.specs.Peer.{text};
ghost use Rattle.peer_store.specs.Store.{HasGate};
ghost use Rattle.line_spelling.specs.Answers.{answer_line};
ghost use Rattle.report_text.specs.Closing.{closing_lines};
ghost use Rattle.form_keep.specs.Stopping.{ReadCause, WriteCause, KeepCause};
ghost use Rattle.form_keep.specs.Replies.{replies_from};
ghost use Rattle.form_keep.specs.Keeping.{OpenedStore, AreKept, AnswerStops};
ghost use Rattle.form_keep.specs.Run.{closing_output, stop_output, ComesFor};

use crate::reader::StepReader;
use crate::stopped::Stopped;
use edit_io::{OutFail, Sink, Source};
use element_name::NoMemory;
use line_engine::offer;
use line_write::put_answer_line;
use peer_core::Peer;
use peer_disk::Disk;
use peer_step::{Answer, Step};
use peer_store::Store;
use report_text::closing_lines;
use std::alloc::Global;

// Writes whole lines.
fn write_lines<K: Sink>(sink: &mut K, lines: &[u8]) -> Result<(), Stopped>
    ensures ok { OnOk result (Appends (K.written sink.old) (K.written sink.new) lines.now) }
    ensures err { OnErr result ((n : ℕ) × Appends (K.written sink.old) (K.written sink.new) (take n lines.now)) }
    ensures stops { IfErr result (λ stopped. (stopped ≡ Stopped.WriteFault) ⊎ (stopped ≡ Stopped.NoMemory)) }
    ensures cause { WriteCause (K.faults sink.old) (K.faults sink.new) result }
{
    match offer(sink, lines) {
        Ok(()) => Ok(()),
        Err(OutFail::Failed) => Err(Stopped::WriteFault),
        Err(OutFail::NoMemory) => Err(Stopped::NoMemory),
    }
}

// The line of an answer.
fn answer_text(alloc: Global, answer: Answer) -> Result<Vec<u8>, NoMemory>
    ensures { IfOk result (λ line. line.items ≡ answer_line None answer) }
{
    let mut line = Vec::new(alloc);
    let told = put_answer_line(&mut line, None, &answer);
    drop(answer);
    told?;
    Ok(line)
}

// Puts a step, and then writes its answer's line.
fn answer_step<K: Sink, D: Disk>(
    alloc: Global,
    store: &mut Store,
    disk: &mut D,
    step: Step,
    sink: &mut K,
) -> Result<(), Stopped>
    requires gate { HasGate store.old (D.seen disk.old) }
    requires unspent { store.old.spent ≡ false }
    ensures kept { OnOk result (AreKept store.old store.new (step ∷ [])
        (D.seen disk.old) (D.seen disk.new) (D.may_leave disk.old) (D.may_leave disk.new)) }
    ensures said { OnOk result (Appends (K.written sink.old) (K.written sink.new) (replies_from store.old.peer (step ∷ []))) }
    ensures gate { HasGate store.new (D.seen disk.new) }
    ensures stops { IfErr result (λ stopped. AnswerStops stopped store.old store.new step (K.written sink.old) (K.written sink.new)
        (D.seen disk.old) (D.seen disk.new) (D.may_leave disk.old) (D.may_leave disk.new)) }
    ensures write_cause { WriteCause (K.faults sink.old) (K.faults sink.new) result }
    ensures disk_cause { KeepCause (D.faults disk.old) (D.faults disk.new) result }
{
    let answer = store.put(disk, step)?;
    let line = answer_text(alloc, answer)?;
    write_lines(sink, &line)
}

/// Puts the steps of a source's lines, and answers each as soon as it stands, before the next line is looked at.
pub(crate) fn answer_steps<S: Source, K: Sink, D: Disk>(
    alloc: Global,
    store: &mut Store,
    disk: &mut D,
    source: &mut S,
    sink: &mut K,
) -> Result<(), Stopped>
    requires gate { HasGate store.old (D.seen disk.old) }
    requires unspent { store.old.spent ≡ false }
    ensures whole { OnOk result ((site : ℕ) (entry : Option (List ℕ))
        → OpenedStore site entry store.old (D.seen disk.old) (D.may_leave disk.old)
        → ComesFor (closing_output (closing_lines store.new.peer)) site entry (S.left source.old) (S.left source.new)
        (K.written sink.old) (K.written sink.new) (D.seen disk.new) (D.may_leave disk.new)) }
    ensures stops { IfErr result (λ stopped. (site : ℕ) (entry : Option (List ℕ))
        → OpenedStore site entry store.old (D.seen disk.old) (D.may_leave disk.old)
        → ComesFor (stop_output stopped) site entry (S.left source.old) (S.left source.new)
        (K.written sink.old) (K.written sink.new) (D.seen disk.new) (D.may_leave disk.new)) }
    ensures gate { HasGate store.new (D.seen disk.new) }
    ensures unspent { OnOk result (store.new.spent ≡ false) }
    ensures reads { Reads (S.left source.old) (S.left source.new) }
    ensures read_cause { ReadCause (S.faults source.old) (S.faults source.new) result }
    ensures write_cause { WriteCause (K.faults sink.old) (K.faults sink.new) result }
    ensures disk_cause { KeepCause (D.faults disk.old) (D.faults disk.new) result }
{
    let mut reader = StepReader::new(alloc)?;
    'steps: while let Some(step) = reader.next_step(alloc, source)? {
        answer_step(alloc, store, disk, step, sink)?;
    }
    Ok(())
}

// The closing lines of a peer that has answered so to `Show`.
fn shown_closing(alloc: Global, shown: Answer, peer: &Peer) -> Result<Vec<u8>, NoMemory>
    requires { shown ≡ Answer.Shown (text peer.now) }
    ensures { IfOk result (λ lines. lines.items ≡ closing_lines peer.now) }
{
    let mut lines = Vec::new(alloc);
    let told = closing_lines(alloc, &shown, peer, &mut lines);
    drop(shown);
    told?;
    Ok(lines)
}

/// The closing lines of a store's peer.
pub(crate) fn closing_text<D: Disk>(
    alloc: Global,
    store: &mut Store,
    disk: &mut D,
) -> Result<Vec<u8>, Stopped>
    requires gate { HasGate store.old (D.seen disk.old) }
    requires unspent { store.old.spent ≡ false }
    ensures lines { IfOk result (λ lines. lines.items ≡ closing_lines store.old.peer) }
    ensures stops { IfErr result (λ stopped. stopped ≡ Stopped.NoMemory) }
    ensures quiet { (disk.new ≡ disk.old) × (store.new ≡ store.old) }
{
    peer_store::laws::changing_steps();
    let answer = store.put(disk, Step::Show)?;
    let lines = shown_closing(alloc, answer, store.peer())?;
    Ok(lines)
}
