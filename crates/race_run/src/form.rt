//! The run of the form.
ghost use Rattle.std.specs.Prelude.{ℕ, List};
ghost use Rattle.line_engine.specs.Engine.{Reads, Says, StatusCause};
ghost use Rattle.peer_lock.specs.declared.call.Call.{Call};
ghost use Rattle.report_run.specs.Report.{report_output};
ghost use Rattle.race_run.specs.Race.{IsRaceOf};
ghost use Rattle.race_run.specs.Form.{RanRace};

use crate::gate::Gate;
use crate::lists::{WorkLists, read_lists};
use crate::racing::race;
use edit_io::{Sink, Source};
use line_engine::Status;
use report_run::report;
use std::alloc::Global;
use std::sync::Wait;
use std::thread::Threads;

// Races the lists, and writes the report of the run.
fn race_and_report<R: Threads + Wait + Sync, K: Sink, G: Gate + Sync>(
    rt: &R,
    alloc: Global,
    site: u16,
    lists: WorkLists,
    sink: &mut K,
    gate: &G,
) -> Status
    ensures reported { (run : List Call) × (written : List ℕ) × IsRaceOf lists.edits lists.arrivals lists.operations run ×
        Says (K.written sink.old) (K.written sink.new) result (report_output site run) written }
    ensures cause { StatusCause (K.faults sink.old) (K.faults sink.new) result Status.WriteFault }
{
    let (edits, arrivals, operations) = lists.into_lists();
    match race(rt, alloc, site, edits, arrivals, operations, gate) {
        Ok((peer, history)) => report(alloc, peer, &history, sink),
        Err(_) => Status::NoMemory,
    }
}

/// Races the step lines that a source gives over one shared peer of a site, and writes the report of the run.
///
/// The input is read to its end first. At a bad line the line that says so is written alone, and where the input is
/// too long `too long` alone; where the source fails nothing is written. In each of these cases nothing is run.
///
/// It takes the time of the steps and of [`report`](report_run::report), and the memory of the steps, of the run and of the
/// peer.
pub fn race_form<R: Threads + Wait + Sync, S: Source, K: Sink, G: Gate + Sync>(
    rt: &R,
    alloc: Global,
    site: u16,
    source: &mut S,
    sink: &mut K,
    gate: &G,
) -> Status
    ensures ran { (input : List ℕ) × (written : List ℕ) × (run : List Call) ×
        RanRace site (S.left source.old) (S.left source.new) (K.written sink.old) (K.written sink.new) result input written run }
    ensures reads { Reads (S.left source.old) (S.left source.new) }
    ensures read_cause { StatusCause (S.faults source.old) (S.faults source.new) result Status.ReadFault }
    ensures write_cause { StatusCause (K.faults sink.old) (K.faults sink.new) result Status.WriteFault }
{
    let (lists, status) = read_lists(alloc, source, sink);
    match status {
        Status::Done => race_and_report(rt, alloc, site, lists, sink, gate),
        status => status,
    }
}
