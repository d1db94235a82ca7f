//! What is written of a run.
ghost use Rattle.std.specs.Prelude.{◌≡◌, ℕ, List};
ghost use Rattle.line_engine.specs.Engine.{Says};
ghost use Rattle.peer_core.specs.Peer.{fresh_peer};
ghost use Rattle.peer_lock.specs.Run.{peer_after_run};
ghost use Rattle.form_link.specs.Faults.{faults_of};
ghost use Rattle.form_link.specs.Report.{link_output, SinkCause};

use crate::faults::faults_of;
use crate::report::tell_run;
use edit_io::Sink;
use line_engine::Status;
use line_input::InputEnd;
use link_run::LinkRun;
use std::alloc::Global;

/// Writes the report of a run whose own steps came from an input that ended so, and the faults that were met.
pub(crate) fn tell<K: Sink>(alloc: Global, run: LinkRun, end: InputEnd, sink: &mut K) -> Status
    requires { run.peer ≡ peer_after_run (fresh_peer run.history.site) run.history.run }
    ensures says { (written : List ℕ) ×
        Says (K.written sink.old) (K.written sink.new) result
        (link_output run.history.site run.history.run (faults_of run.door_failed end run.own run.links.items)) written }
    ensures cause { SinkCause (K.faults sink.old) (K.faults sink.new) result }
{
    let LinkRun {
        peer,
        history,
        own,
        door_failed,
        links,
    } = run;
    match faults_of(alloc, door_failed, end, own, &links) {
        Ok(faults) => tell_run(alloc, peer, &history, &faults, sink),
        Err(_) => {
            drop(peer);
            Status::NoMemory
        }
    }
}
