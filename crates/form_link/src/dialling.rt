//! The form that dials.
ghost use Rattle.std.specs.Prelude.{◌≤◌, IfOk};
ghost use Rattle.edit_io.specs.Door.{HasRoom};
ghost use Rattle.line_engine.specs.Engine.{Reads};
ghost use Rattle.link_run.specs.Ends.{LedFrom};
ghost use Rattle.link_run.specs.Counts.{LeavesDoor};
ghost use Rattle.form_link.specs.Report.{SinkCause};
ghost use Rattle.form_link.specs.Form.{door_state, Dials, ReadAndRan, HasLinkCause};

use crate::telling::tell;
use edit_io::{Door, Sink, Source};
use element_name::NoMemory;
use line_engine::Status;
use line_input::{InputEnd, StepInput, read_steps};
use link_run::{LinkRun, dial, run_alone};
use std::alloc::Global;
use std::sync::Wait;
use std::thread::Threads;

// Makes the steps of an input, and then dials, if the input has no fault.
fn dial_behind<R: Threads + Wait + Sync, D: Door>(
    rt: &R,
    alloc: Global,
    site: u16,
    port: u16,
    rounds: u32,
    input: &StepInput,
    door: &mut D,
) -> Result<LinkRun, NoMemory>
    requires room { HasRoom (D.faults door.old) (D.given door.old) }
    requires back { D.returned door.old ≤ D.given door.old }
    ensures ends { IfOk result (λ r.
        Dials D.Line.got D.Line.sent D.Line.faults D.Line.closes site rounds input.now.end input.now.steps.items
        (door_state (D.faults door.old) (D.given door.old) (D.returned door.old) (D.hurt door.old) (D.used door.old))
        (door_state (D.faults door.new) (D.given door.new) (D.returned door.new) (D.hurt door.new) (D.used door.new))
        r.own r.door_failed r.links.items r.history.run) }
    ensures led { IfOk result (LedFrom site) }
    ensures door { LeavesDoor D.faults D.given D.returned D.hurt D.used door.old door.new result }
{
    match input.end {
        InputEnd::Whole => dial(rt, alloc, site, port, rounds, &input.steps, door),
        _ => run_alone(rt, alloc, site, &input.steps),
    }
}

/// Makes the steps of the step lines that a source gives on a peer of a site, then connects to a port and has a session
/// of so many rounds, and writes the report of the run and the faults that were met.
///
/// The input is read first, to its end or to its first fault, and the steps that were read are made. Where the input had
/// a fault, or the run was full, it doesn't connect. Where memory is wanting before the run, as while the input is read,
/// nothing is written.
///
/// It waits for the other side. It takes the time of the steps and of [`report`](report_run::report), and the memory of the
/// steps, of the run and of the peer.
pub fn dial_form<R: Threads + Wait + Sync, S: Source, K: Sink, D: Door>(
    rt: &R,
    alloc: Global,
    site: u16,
    port: u16,
    rounds: u32,
    source: &mut S,
    sink: &mut K,
    door: &mut D,
) -> Status
    requires room { HasRoom (D.faults door.old) (D.given door.old) }
    requires back { D.returned door.old ≤ D.given door.old }
    // The steps are those that were read; the link stands to the caller in the run as a session does, behind them, and
    // came back; and the report was written, and a line for each fault.
    ensures ran { let before = door_state (D.faults door.old) (D.given door.old) (D.returned door.old) (D.hurt door.old) (D.used door.old) in
        let after = door_state (D.faults door.new) (D.given door.new) (D.returned door.new) (D.hurt door.new) (D.used door.new) in
        ReadAndRan (λ steps end. Dials D.Line.got D.Line.sent D.Line.faults D.Line.closes site rounds end steps before after) site
        (S.left source.old) (S.left source.new) (S.faults source.old) (S.faults source.new) (K.written sink.old) (K.written sink.new) before after result }
    ensures reads { Reads (S.left source.old) (S.left source.new) }
    ensures write_cause { SinkCause (K.faults sink.old) (K.faults sink.new) result }
    ensures link_cause { HasLinkCause (D.faults door.old) (D.faults door.new) (D.hurt door.old) (D.hurt door.new) result }
{
    let input = read_steps(alloc, source);
    if let InputEnd::NoMemory = input.end {
        return Status::NoMemory;
    }
    match dial_behind(rt, alloc, site, port, rounds, &input, door) {
        Ok(run) => tell(alloc, run, input.end, sink),
        Err(_) => Status::NoMemory,
    }
}
