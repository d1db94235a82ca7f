//! Answering what is whole of a chunk.
ghost use Rattle.std.specs.Prelude.{◌≡◌, ◌≢◌, ℕ, ◌+◌, ◌^◌, ◌<◌, ◌≤◌, List, [], length, OnOk, OnErr, IfOk, IfErr, Err};
ghost use Rattle.line_engine.specs.Status.{IsSinkFail, status_of};
ghost use Rattle.line_engine.specs.Form.{Falls};
ghost use Rattle.line_engine.specs.Steps.{Answers, Offers, BreaksOff, Takes, Stops, StopCause};

use crate::form::{Form, Next};
use crate::limits::BATCH_BYTES;
use crate::offering::offer;
use crate::status::{Stop, stop_of};
use edit_io::Sink;
use std::alloc::{AllocError, Global};

// Answers the next thing that is whole, behind the answers that are gathered.
fn answer<F: Form>(
    alloc: Global,
    form: &mut F,
    out: &mut Vec<u8>,
    gathered: &mut Vec<u8>,
) -> Result<Next, AllocError>
    requires load { F.load form.old < 2 ^ 64 }
    requires empty { out.old.items ≡ [] }
    ensures answers { IfOk result (λ next. Answers F.meaning form.old form.new gathered.old.items gathered.new.items next) }
    ensures falls { IfOk result (Falls (F.held form.old) (F.held form.new)) }
    ensures empty { OnOk result (out.new.items ≡ []) }
    ensures kept { OnErr result (gathered.new.items ≡ gathered.old.items) }
    ensures load { F.load form.new ≤ F.load form.old }
{
    let next = form.next(alloc, out)?;
    match next {
        Next::Answered | Next::Bad => gathered.extend_from_slice(out)?,
        Next::Waiting => {}
    }
    out.clear();
    Ok(next)
}

// Offers the answers that are gathered, unless they are few and the next thing is asked for before more is read.
fn offer_due<K: Sink>(next: Next, gathered: &mut Vec<u8>, sink: &mut K) -> Result<(), Stop>
    ensures ok { OnOk result (Offers (K.written sink.old) (K.written sink.new) gathered.old.items gathered.new.items) }
    ensures all { OnOk result (next ≢ Next.Answered → gathered.new.items ≡ []) }
    ensures fails { IfErr result (λ stop. IsSinkFail (status_of stop)) }
    ensures err { OnErr result (BreaksOff (K.written sink.old) (K.written sink.new) gathered.old.items) }
    ensures cause { StopCause (K.faults sink.old) (K.faults sink.new) result }
{
    if next == Next::Answered && gathered.len() < BATCH_BYTES {
        return Ok(());
    }
    match offer(sink, gathered) {
        Ok(()) => {
            gathered.clear();
            Ok(())
        }
        Err(fail) => Err(stop_of(fail)),
    }
}

// Why a run stops that finds no memory for an answer, once those that are gathered are offered.
fn give_up<K: Sink>(gathered: &[u8], sink: &mut K) -> Stop
    ensures fails { IsSinkFail (status_of result) }
    ensures begins { BreaksOff (K.written sink.old) (K.written sink.new) gathered.now }
    ensures cause { StopCause {T = Unit {0}} (K.faults sink.old) (K.faults sink.new) (Err result) }
{
    match offer(sink, gathered) {
        Ok(()) => Stop::NoMemory,
        Err(fail) => stop_of(fail),
    }
}

/// Takes a chunk, and answers all that is whole then.
pub(crate) fn answer_chunk<F: Form, K: Sink>(
    alloc: Global,
    form: &mut F,
    chunk: &[u8],
    out: &mut Vec<u8>,
    gathered: &mut Vec<u8>,
    sink: &mut K,
) -> Result<(), Stop>
    requires load { F.load form.old + length chunk.now < 2 ^ 64 }
    requires empty { out.old.items ≡ [] }
    requires none { gathered.old.items ≡ [] }
    ensures ok { OnOk result ((written : List ℕ) ×
        Takes F.meaning form.old form.new (K.written sink.old) (K.written sink.new) chunk.now written) }
    ensures err { IfErr result (λ stop. (written : List ℕ) ×
        Stops F.meaning form.old form.new (K.written sink.old) (K.written sink.new) chunk.now (status_of stop) written) }
    ensures empty { OnOk result (out.new.items ≡ []) }
    ensures none { OnOk result (gathered.new.items ≡ []) }
    ensures load { F.load form.new ≤ F.load form.old + length chunk.now }
    ensures cause { StopCause (K.faults sink.old) (K.faults sink.new) result }
{
    if let Err(_) = form.feed(alloc, chunk) {
        return Err(Stop::NoMemory);
    }
    'answers: loop {
        let next = match answer(alloc, form, out, gathered) {
            Err(_) => return Err(give_up(gathered, sink)),
            Ok(next) => next,
        };
        if let Err(stop) = offer_due(next, gathered, sink) {
            return Err(stop);
        }
        match next {
            Next::Answered => {}
            Next::Bad => return Err(Stop::BadInput),
            Next::Waiting => return Ok(()),
        }
    }
}
