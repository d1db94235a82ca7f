//! The run of the form.
ghost use Rattle.std.specs.Prelude.{◌≡◌, ◌≤◌, ℕ, List, length};
ghost use Rattle.line_engine.specs.Engine.{Reads, StatusCause};
ghost use Rattle.peer_step.specs.declared.step.Step.{Step};
ghost use Rattle.line_input.specs.declared.reading.InputEnd.{InputEnd};
ghost use Rattle.line_input.specs.Steps.{ReadSteps, EndCause};
ghost use Rattle.form_watch.specs.Watch.{watch_end, WroteWatch, Watches};

use crate::limits::MAX_LINES;
use crate::telling::{tell_bad_line, tell_watched};
use crate::watching::watch;
use edit_io::{Sink, Source};
use line_engine::{Status, say};
use line_input::{InputEnd, StepInput, read_steps};
use peer_step::Step;
use race_run::Gate;
use std::alloc::Global;
use std::sync::Wait;
use std::thread::Threads;

// How the input of a watch ends, by how many steps were read and how reading ended.
fn watch_end(steps: usize, end: InputEnd) -> InputEnd
    ensures end { result ≡ watch_end steps end }
    ensures few { result ≡ InputEnd.Whole → steps ≤ MAX_LINES }
{
    match end {
        InputEnd::NoMemory => InputEnd::NoMemory,
        _ if steps > MAX_LINES => InputEnd::BadLine(MAX_LINES as u64 + 1),
        end => end,
    }
}

// Watches the steps, and writes the report of the run and what was read.
fn watch_steps<R: Threads + Wait + Sync, K: Sink, G: Gate + Sync>(
    rt: &R,
    alloc: Global,
    site: u16,
    reads: u32,
    steps: &[Step],
    sink: &mut K,
    gate: &G,
) -> Status
    requires { length steps.now ≤ MAX_LINES }
    ensures wrote { WroteWatch site reads steps.now InputEnd.Whole (K.written sink.old) (K.written sink.new) result }
    ensures cause { StatusCause (K.faults sink.old) (K.faults sink.new) result Status.WriteFault }
{
    match watch(rt, alloc, site, steps, reads, gate) {
        Ok((peer, watched)) => tell_watched(alloc, peer, &watched, sink),
        Err(_) => Status::NoMemory,
    }
}

/// Watches the step lines that a source gives, over a shared peer of a site: one worker makes each step and publishes the
/// text after it, another reads pages so often. Then writes the report of the run, and a line for each page that was read.
///
/// The input is read to its end first. At a bad line, or at one more than [`MAX_LINES`](crate::MAX_LINES), the line that
/// says so is written alone, and where the input is too long `too long` alone; where the source fails nothing is written.
/// In each of these cases nothing is run.
///
/// A page that has more steps than the run is written as the last page that the screen told. Which pages are read is left
/// to the threads.
///
/// It takes the time of the steps three times, with those that ask for the text, and the memory of the steps, of the run,
/// of the peer and of the texts that were read.
pub fn watch_form<R: Threads + Wait + Sync, S: Source, K: Sink, G: Gate + Sync>(
    rt: &R,
    alloc: Global,
    site: u16,
    reads: u32,
    source: &mut S,
    sink: &mut K,
    gate: &G,
) -> Status
    // The steps are those that were read, and what is written is that of a watch of them.
    ensures watched { (input : List ℕ) × (steps : List Step) × (end : InputEnd) ×
        ReadSteps (S.left source.old) (S.left source.new) input steps end ×
        EndCause (S.faults source.old) (S.faults source.new) end ×
        Watches site reads steps end (K.written sink.old) (K.written sink.new) result }
    ensures reads { Reads (S.left source.old) (S.left source.new) }
    ensures write_cause { StatusCause (K.faults sink.old) (K.faults sink.new) result Status.WriteFault }
{
    let StepInput { steps, end } = read_steps(alloc, source);
    match watch_end(steps.len(), end) {
        InputEnd::Whole => watch_steps(rt, alloc, site, reads, &steps, sink, gate),
        InputEnd::BadLine(number) => tell_bad_line(alloc, number, sink),
        InputEnd::TooLong => say(sink, b"too long\n", Status::TooLong),
        InputEnd::ReadFault => Status::ReadFault,
        InputEnd::NoMemory => Status::NoMemory,
    }
}
