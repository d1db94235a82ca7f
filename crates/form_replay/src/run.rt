//! The run of a script.
ghost use Rattle.std.specs.Prelude.{ℕ, List};
ghost use Rattle.line_engine.specs.Engine.{Reads, StatusCause};
ghost use Rattle.form_replay.specs.Replay.{RanReplay};

use crate::play::Replay;
use edit_io::{Sink, Source};
use line_engine::{Status, run_world};
use std::alloc::Global;

/// Plays the script that a source gives, and writes what its lines are answered into a sink.
///
/// A line is answered as soon as its line end was read. A bad line, or none at all, ends the run, by the line that
/// says so. It takes the time of the peers' steps, and the memory of the world, a chunk of input, a line and its answer.
pub fn replay<S: Source, K: Sink>(alloc: Global, source: &mut S, sink: &mut K) -> Status
    ensures ran { (input : List ℕ) × (written : List ℕ) ×
        RanReplay (S.left source.old) (S.left source.new) (K.written sink.old) (K.written sink.new) result input written }
    ensures reads { Reads (S.left source.old) (S.left source.new) }
    ensures read_cause { StatusCause (S.faults source.old) (S.faults source.new) result Status.ReadFault }
    ensures write_cause { StatusCause (K.faults sink.old) (K.faults sink.new) result Status.WriteFault }
{
    let (_, status) = run_world(alloc, Replay::new(), source, sink);
    status
}
