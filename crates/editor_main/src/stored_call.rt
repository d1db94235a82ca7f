//! The call that keeps a peer in a file.
ghost use Rattle.std.specs.Prelude.{◌≡◌, ℕ, List, IfSome, IsNone, Some};
ghost use Rattle.line_engine.specs.Engine.{Reads, Says, StatusCause};
ghost use Rattle.form_keep.specs.Run.{RanKeep, DiskCause};
ghost use Rattle.editor_main.specs.Plain.{usage_output};
ghost use Rattle.editor_main.specs.Stored.{keep_site_of};

use crate::command::{Command, command_of};
use crate::form::say_usage;
use crate::word::Word;
use edit_io::{Sink, Source};
use form_keep::keep;
use line_engine::Status;
use peer_disk::Disk;
use std::alloc::Global;

/// Keeps a peer on a disk where the words are `keep SITE FILE`, over a source and a sink. It waits for nobody else.
///
/// The disk is that of the named file, which the caller opens. Where the words are others it isn't called.
pub fn stored<S: Source, K: Sink, D: Disk>(
    alloc: Global,
    words: &[Word],
    source: &mut S,
    sink: &mut K,
    disk: &mut D,
) -> Status
    ensures kept { IfSome (keep_site_of words.now) (λ site. (input : List ℕ) × RanKeep site (D.seen disk.old)
        (S.left source.old) (S.left source.new) (K.written sink.old) (K.written sink.new) (D.seen disk.new) (D.may_leave disk.new) result input) }
    ensures usage { IsNone (keep_site_of words.now) →
        ((written : List ℕ) × Says (K.written sink.old) (K.written sink.new) result usage_output written)
        × (source.new ≡ source.old) × (disk.new ≡ disk.old) }
    ensures reads { Reads (S.left source.old) (S.left source.new) }
    ensures read_cause { StatusCause (S.faults source.old) (S.faults source.new) result Status.ReadFault }
    ensures write_cause { StatusCause (K.faults sink.old) (K.faults sink.new) result Status.WriteFault }
    ensures disk_cause { DiskCause (D.faults disk.old) (D.faults disk.new) result }
{
    match command_of(words) {
        Some(Command::Keep(site)) => keep(alloc, site, source, sink, disk),
        Some(
            Command::Replay
            | Command::Feed(_)
            | Command::Make { .. }
            | Command::Race(_)
            | Command::Serve { .. }
            | Command::Dial { .. }
            | Command::Watch { .. }
            | Command::Certify(_)
            | Command::Audit,
        )
        | None => say_usage(alloc, sink),
    }
}
