//! The form that serves.
ghost use Rattle.std.specs.Prelude.{◌≤◌, ◌<◌};
ghost use Rattle.line_engine.specs.Engine.{Reads};
ghost use Rattle.peer_lock.specs.declared.limits.TheConstants.{MAX_PASSES};
ghost use Rattle.link_run.specs.Taken.{HasRoomForLinks};
ghost use Rattle.form_link.specs.Report.{SinkCause};
ghost use Rattle.form_link.specs.Form.{door_state, Serves, ReadAndRan, HasLinkCause};

use crate::telling::tell;
use edit_io::{Door, Sink, Source};
use line_engine::Status;
use line_input::{InputEnd, StepInput, read_steps};
use link_run::serve;
use std::alloc::Global;
use std::sync::Wait;
use std::thread::Threads;

/// Serves so many links on a port, beside the step lines that a source gives, on a peer of a site, and writes the report
/// of the run and the faults that were met.
///
/// The input is read first, to its end or to its first fault. Then it listens and takes the links, and makes the steps
/// that were read beside the sessions, also where the input had a fault. Where the door fails, nothing is run, and no
/// fault of the input is told. Where memory is wanting before the run, as while the input is read, nothing is written.
///
/// It waits for the programs that connect, and then until all sessions have ended. It takes the time of the steps
/// and of [`report`](report_run::report), and the memory of the steps, of the run and of the peer.
pub fn serve_form<R: Threads + Wait + Sync, S: Source, K: Sink, D: Door>(
    rt: &R,
    alloc: Global,
    site: u16,
    port: u16,
    links: u32,
    source: &mut S,
    sink: &mut K,
    door: &mut D,
) -> Status
    requires few { links < MAX_PASSES }
    requires room { HasRoomForLinks links (D.faults door.old) (D.given door.old) }
    requires back { D.returned door.old ≤ D.given door.old }
    // The steps are those that were read; the links stand to their callers in the run as sessions do, and came back; and
    // the report was written, and a line for each fault.
    ensures ran { let before = door_state (D.faults door.old) (D.given door.old) (D.returned door.old) (D.hurt door.old) (D.used door.old) in
        let after = door_state (D.faults door.new) (D.given door.new) (D.returned door.new) (D.hurt door.new) (D.used door.new) in
        ReadAndRan (λ steps end. Serves D.Line.got D.Line.sent D.Line.faults D.Line.closes site links steps before after) site
        (S.left source.old) (S.left source.new) (S.faults source.old) (S.faults source.new) (K.written sink.old) (K.written sink.new) before after result }
    ensures reads { Reads (S.left source.old) (S.left source.new) }
    ensures write_cause { SinkCause (K.faults sink.old) (K.faults sink.new) result }
    ensures link_cause { HasLinkCause (D.faults door.old) (D.faults door.new) (D.hurt door.old) (D.hurt door.new) result }
{
    let StepInput { steps, end } = read_steps(alloc, source);
    if let InputEnd::NoMemory = end {
        return Status::NoMemory;
    }
    match serve(rt, alloc, site, port, links, &steps, door) {
        Ok(run) => tell(alloc, run, end, sink),
        Err(_) => Status::NoMemory,
    }
}
