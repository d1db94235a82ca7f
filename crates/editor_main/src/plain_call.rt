//! The top call.
ghost use Rattle.std.specs.Prelude.{◌≤◌, ℕ, List};
ghost use Rattle.line_engine.specs.Engine.{Reads, StatusCause, Says};
ghost use Rattle.edit_make.specs.declared.limits.TheConstants.{MAX_EDITS};
ghost use Rattle.editor_main.specs.Command.{command_of};
ghost use Rattle.editor_main.specs.Plain.{RanPlain, make_output};

use crate::command::{Command, command_of};
use crate::form::say_usage;
use crate::word::Word;
use edit_io::{Sink, Source};
use edit_make::summary;
use form_certificate::{audit_input, certify_stream};
use form_feed::feed;
use form_replay::replay;
use line_engine::{Status, say};
use std::alloc::Global;

// Writes the summary of the world that a seed makes.
fn make<K: Sink>(alloc: Global, seed: u32, edits: u32, sink: &mut K) -> Status
    requires { edits ≤ MAX_EDITS }
    ensures says { (written : List ℕ) × Says (K.written sink.old) (K.written sink.new) result (make_output seed edits) written }
    ensures cause { StatusCause (K.faults sink.old) (K.faults sink.new) result Status.WriteFault }
{
    match summary(alloc, seed, edits) {
        Ok(lines) => say(sink, &lines, Status::Done),
        Err(_) => Status::NoMemory,
    }
}

/// Runs the command that the words name over a source and a sink, and waits for nobody else. Where others take part in it,
/// or it asks for a file, the words are none of this call's, and the usage line is written.
///
/// A line is answered as soon as its line end was read. Reading is in chunks of at most 64 KiB.
pub fn plain<S: Source, K: Sink>(
    alloc: Global,
    words: &[Word],
    source: &mut S,
    sink: &mut K,
) -> Status
    ensures ran { (input : List ℕ) × (written : List ℕ) ×
        RanPlain (command_of words.now) (S.left source.old) (S.left source.new)
        (K.written sink.old) (K.written sink.new) result input written }
    ensures reads { Reads (S.left source.old) (S.left source.new) }
    ensures read_cause { StatusCause (S.faults source.old) (S.faults source.new) result Status.ReadFault }
    ensures write_cause { StatusCause (K.faults sink.old) (K.faults sink.new) result Status.WriteFault }
{
    match command_of(words) {
        Some(Command::Replay) => {
            form_replay::laws::headline();
            replay(alloc, source, sink)
        }
        Some(Command::Feed(site)) => feed(alloc, site, source, sink),
        Some(Command::Make { seed, edits }) => make(alloc, seed, edits, sink),
        Some(Command::Certify(site)) => certify_stream(alloc, site, source, sink),
        Some(Command::Audit) => {
            form_certificate::laws::answer_is_right();
            audit_input(alloc, source, sink)
        }
        Some(
            Command::Race(_)
            | Command::Serve { .. }
            | Command::Dial { .. }
            | Command::Watch { .. }
            | Command::Keep(_),
        )
        | None => say_usage(alloc, sink),
    }
}
