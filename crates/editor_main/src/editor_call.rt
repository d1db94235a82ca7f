//! The top call that may start threads and talk to other programs.
ghost use Rattle.std.specs.Prelude.{◌≡◌};
ghost use Rattle.line_engine.specs.Engine.{Reads};
ghost use Rattle.form_link.specs.Form.{door_state};
ghost use Rattle.editor_main.specs.Command.{command_of};
ghost use Rattle.editor_main.specs.Editor.{stream_state, EditorEnds};

use crate::command::{Command, command_of};
use crate::plain_call::plain;
use crate::word::Word;
use edit_io::{Door, Sink, Source};
use form_link::{dial_form, serve_form};
use form_watch::watch_form;
use line_engine::Status;
use race_run::{Gate, race_form};
use std::alloc::Global;
use std::sync::Wait;
use std::thread::Threads;

/// Runs the command that the words name over a source and a sink, a door to other programs that wasn't asked yet, and a
/// gate that the workers of a race or of a watch pass.
///
/// A race, a watch, and a peer that is run over links, read their input to the end, or to its first fault, and then run its steps.
/// All other commands are those of [`plain`](crate::plain). It waits for threads, and for the programs that connect or
/// are connected to.
pub fn editor<R: Threads + Wait + Sync, S: Source + Send, K: Sink, D: Door, G: Gate + Sync>(
    rt: &R,
    alloc: Global,
    words: &[Word],
    source: &mut S,
    sink: &mut K,
    door: &mut D,
    gate: &G,
) -> Status
    requires { (D.faults door.old ≡ 0) × (D.given door.old ≡ 0) × (D.returned door.old ≡ 0) }
    ensures ends { EditorEnds D.Line.got D.Line.sent D.Line.faults D.Line.closes (command_of words.now)
        (stream_state (S.left source.old) (S.faults source.old)) (stream_state (S.left source.new) (S.faults source.new))
        (stream_state (K.written sink.old) (K.faults sink.old)) (stream_state (K.written sink.new) (K.faults sink.new))
        (door_state (D.faults door.old) (D.given door.old) (D.returned door.old) (D.hurt door.old) (D.used door.old))
        (door_state (D.faults door.new) (D.given door.new) (D.returned door.new) (D.hurt door.new) (D.used door.new))
        result }
    ensures reads { Reads (S.left source.old) (S.left source.new) }
{
    match command_of(words) {
        Some(Command::Race(site)) => race_form(rt, alloc, site, source, sink, gate),
        Some(Command::Serve { site, port, links }) => {
            serve_form(rt, alloc, site, port, links, source, sink, door)
        }
        Some(Command::Dial { site, port, rounds }) => {
            dial_form(rt, alloc, site, port, rounds, source, sink, door)
        }
        Some(Command::Watch { site, reads }) => {
            watch_form(rt, alloc, site, reads, source, sink, gate)
        }
        Some(Command::Replay)
        | Some(Command::Feed(_))
        | Some(Command::Make { .. })
        | Some(Command::Certify(_))
        | Some(Command::Audit)
        | Some(Command::Keep(_))
        | None => plain(alloc, words, source, sink),
    }
}
