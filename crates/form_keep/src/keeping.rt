//! The form that keeps a peer in a file.
ghost use Rattle.std.specs.Prelude.{◌≡◌, ◌≢◌, ◌++◌, ℕ, List, decimal, IfOk, IfErr};
ghost use Rattle.line_spelling.specs.Line.{line_of};
ghost use Rattle.line_engine.specs.Engine.{Reads, Says, StatusCause};
ghost use Rattle.form_keep.specs.Stopping.{ReadCause, WriteCause, KeepCause, TellCause};
ghost use Rattle.form_keep.specs.Run.{closing_output, stop_output, ComesFor, RanKeep, DiskCause};

use crate::answering::{answer_steps, closing_text};
use crate::opening::open_store;
use crate::stopped::Stopped;
use edit_io::{Sink, Source};
use line_engine::{Status, say};
use line_spelling::LINE_END;
use peer_disk::Disk;
use std::alloc::{AllocError, Global};

// A line with a number behind its words.
fn numbered_line(alloc: Global, words: &[u8], number: u64) -> Result<Vec<u8>, AllocError>
    ensures { IfOk result (λ line. line.items ≡ line_of (words.now ++ decimal number)) }
{
    let mut line = Vec::from_slice(alloc, words)?;
    let digits = number.to_string(alloc)?;
    line.extend_from_slice(digits.as_bytes())?;
    line.push(LINE_END)?;
    Ok(line)
}

// Writes a line with a number behind its words, and gives a status.
fn say_numbered<K: Sink>(
    alloc: Global,
    sink: &mut K,
    words: &[u8],
    number: u64,
    status: Status,
) -> Status
    ensures says { (written : List ℕ) × Says (K.written sink.old) (K.written sink.new) result
        (record { written = line_of (words.now ++ decimal number); status = status }) written }
    ensures cause { status ≢ Status.WriteFault → StatusCause (K.faults sink.old) (K.faults sink.new) result Status.WriteFault }
{
    match numbered_line(alloc, words, number) {
        Ok(line) => say(sink, &line, status),
        Err(_) => Status::NoMemory,
    }
}

// Writes the line that says why a run stopped, and gives its status. After a fault of the source or the sink, or for want
// of memory, there is none.
fn tell<K: Sink>(alloc: Global, stopped: Stopped, sink: &mut K) -> Status
    ensures says { (written : List ℕ) × Says (K.written sink.old) (K.written sink.new) result (stop_output stopped) written }
    ensures cause { TellCause (K.faults sink.old) (K.faults sink.new) stopped result }
{
    match stopped {
        Stopped::BadLine(number) => say_numbered(
            alloc,
            sink,
            b"bad line ",
            number,
            Status::BadInput,
        ),
        Stopped::TooLong => say(sink, b"too long\n", Status::TooLong),
        Stopped::ReadFault => Status::ReadFault,
        Stopped::WriteFault => Status::WriteFault,
        Stopped::NoMemory => Status::NoMemory,
        Stopped::DiskFault => say(sink, b"disk fault\n", Status::DiskFault),
        Stopped::BadStore(offset) => say_numbered(
            alloc,
            sink,
            b"bad store ",
            offset,
            Status::BadStore,
        ),
        Stopped::StoreFull => say(sink, b"store full\n", Status::StoreFull),
    }
}

// Opens the store, answers the steps, and gives the closing lines.
fn keep_steps<S: Source, K: Sink, D: Disk>(
    alloc: Global,
    site: u16,
    source: &mut S,
    sink: &mut K,
    disk: &mut D,
) -> Result<Vec<u8>, Stopped>
    ensures whole { IfOk result (λ closing. ComesFor (closing_output closing.items) site (D.seen disk.old)
        (S.left source.old) (S.left source.new) (K.written sink.old) (K.written sink.new) (D.seen disk.new) (D.may_leave disk.new)) }
    ensures stops { IfErr result (λ stopped. ComesFor (stop_output stopped) site (D.seen disk.old)
        (S.left source.old) (S.left source.new) (K.written sink.old) (K.written sink.new) (D.seen disk.new) (D.may_leave disk.new)) }
    ensures reads { Reads (S.left source.old) (S.left source.new) }
    ensures read_cause { ReadCause (S.faults source.old) (S.faults source.new) result }
    ensures write_cause { WriteCause (K.faults sink.old) (K.faults sink.new) result }
    ensures disk_cause { KeepCause (D.faults disk.old) (D.faults disk.new) result }
{
    let mut store = open_store(alloc, disk, site)?;
    match answer_steps(alloc, &mut store, disk, source, sink) {
        Ok(()) => {
            let closing = closing_text(alloc, &mut store, disk);
            drop(store);
            closing
        }
        Err(stopped) => {
            drop(store);
            Err(stopped)
        }
    }
}

/// Keeps the peer of a site on a disk: makes each step that the source's lines say, and answers it once the disk has it.
///
/// On an empty disk the store of the fresh peer is made, and another is opened. Each answer's line is offered to the
/// sink whole before the next line is looked at, and at the input's end the text and what is held are written. At a bad
/// line, where the disk fails, and where the file is no store or has no more room, the line that says so ends the run.
/// Of an input that is longer than [`MAX_INPUT`](line_engine::MAX_INPUT) bytes the lines that end within these are
/// answered.
///
/// It takes the time of opening the store, and for each line the time of a put; and the memory of the peer, a chunk of
/// input, a line and its answer.
pub fn keep<S: Source, K: Sink, D: Disk>(
    alloc: Global,
    site: u16,
    source: &mut S,
    sink: &mut K,
    disk: &mut D,
) -> Status
    ensures ran { (input : List ℕ) × RanKeep site (D.seen disk.old) (S.left source.old) (S.left source.new)
        (K.written sink.old) (K.written sink.new) (D.seen disk.new) (D.may_leave disk.new) result input }
    ensures reads { Reads (S.left source.old) (S.left source.new) }
    ensures read_cause { StatusCause (S.faults source.old) (S.faults source.new) result Status.ReadFault }
    ensures write_cause { StatusCause (K.faults sink.old) (K.faults sink.new) result Status.WriteFault }
    ensures disk_cause { DiskCause (D.faults disk.old) (D.faults disk.new) result }
{
    match keep_steps(alloc, site, source, sink, disk) {
        Ok(closing) => say(sink, &closing, Status::Done),
        Err(stopped) => tell(alloc, stopped, sink),
    }
}
