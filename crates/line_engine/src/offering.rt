//! Writing lines.
ghost use Rattle.std.specs.Prelude.{ℕ, ◌<◌, ◌≤◌, length, take, OnOk, OnErr};
ghost use Rattle.std.specs.Io.KnownBytes.{Appends};
ghost use Rattle.edit_io.specs.Causes.{HasOutCause};

use edit_io::{OutFail, Sink};

/// Offers all of the lines at once, so each of them whole, and what a write leaves of them again.
pub fn offer<K: Sink>(sink: &mut K, lines: &[u8]) -> Result<(), OutFail>
    ensures ok { OnOk result (Appends (K.written sink.old) (K.written sink.new) lines.now) }
    ensures err { OnErr result ((n : ℕ) × Appends (K.written sink.old) (K.written sink.new) (take n lines.now)) }
    ensures cause { HasOutCause (K.faults sink.old) (K.faults sink.new) result }
{
    let mut at = 0;
    while at < lines.len() {
        let taken = sink.write(&lines[at..])?;
        at += taken;
    }
    Ok(())
}
