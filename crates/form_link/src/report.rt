//! The report of a run, and the faults behind it.
ghost use Rattle.std.specs.Prelude.{◌≡◌, ◌≢◌, ◌++◌, ℕ, List};
ghost use Rattle.line_engine.specs.Engine.{Says, StatusCause};
ghost use Rattle.peer_core.specs.Peer.{fresh_peer};
ghost use Rattle.peer_lock.specs.Run.{peer_after_run};
ghost use Rattle.report_run.specs.Report.{report};
ghost use Rattle.form_link.specs.Report.{link_output, SinkCause};

use crate::fault_telling::{fault_lines, faults_status};
use crate::faults::Fault;
use edit_io::Sink;
use line_engine::{Status, say};
use peer_core::Peer;
use peer_lock::History;
use report_run::report;
use std::alloc::Global;

// Writes the report of a run and then lines, and gives a status.
fn tell_then<K: Sink>(
    alloc: Global,
    peer: Peer,
    history: &History,
    lines: &[u8],
    status: Status,
    sink: &mut K,
) -> Status
    requires status { status ≢ Status.WriteFault }
    requires peer { peer ≡ peer_after_run (fresh_peer history.now.site) history.now.run }
    ensures says { (written : List ℕ) ×
        Says (K.written sink.old) (K.written sink.new) result
        (record { written = report history.now.site history.now.run ++ lines.now; status = status }) written }
    ensures cause { StatusCause (K.faults sink.old) (K.faults sink.new) result Status.WriteFault }
{
    match report(alloc, peer, history, sink) {
        Status::Done => say(sink, lines, status),
        failed => failed,
    }
}

/// Writes the report of a run, which led to the peer, and behind it the lines of the faults that were met, and gives their
/// status.
///
/// Where memory was wanting among the faults, that is the status, also where the sink fails. It costs what
/// [`report`](report_run::report) does.
pub fn tell_run<K: Sink>(
    alloc: Global,
    peer: Peer,
    history: &History,
    faults: &[Fault],
    sink: &mut K,
) -> Status
    requires { peer ≡ peer_after_run (fresh_peer history.now.site) history.now.run }
    ensures says { (written : List ℕ) ×
        Says (K.written sink.old) (K.written sink.new) result (link_output history.now.site history.now.run faults.now) written }
    ensures cause { SinkCause (K.faults sink.old) (K.faults sink.new) result }
{
    let Ok(lines) = fault_lines(alloc, faults) else {
        drop(peer);
        return Status::NoMemory;
    };
    let status = faults_status(faults);
    let told = tell_then(alloc, peer, history, &lines, status, sink);
    match status {
        Status::NoMemory => Status::NoMemory,
        _ => told,
    }
}
