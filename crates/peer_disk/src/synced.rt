//! A write that goes to the disk at once.
ghost use Rattle.std.specs.Prelude.{◌≡◌, ◌≤◌, IfSome, OnOk, OnErr, length, option_map};
ghost use Rattle.edit_io.specs.Causes.{Rose};
ghost use Rattle.peer_disk.specs.Disk.{overwritten, Only, LeavesOnly};
ghost use Rattle.peer_disk.specs.Records.{TornSince, IsNoShorter};

use crate::disk::Disk;
use edit_io::Failed;

/// Writes the bytes, and then syncs.
pub(crate) fn write_synced<D: Disk>(disk: &mut D, from: u64, bytes: &[u8]) -> Result<(), Failed>
    requires { IfSome (D.seen disk.old) (λ file. from ≤ length file) }

    ensures written { OnOk result (D.seen disk.new ≡ option_map (λ file. overwritten file from bytes.now) (D.seen disk.old)) }
    ensures durable { OnOk result (IfSome (D.seen disk.new) (λ file. Only file (D.may_leave disk.new))) }

    // The file grows no shorter, whatever the result.
    ensures no_shorter { IsNoShorter (D.seen disk.old) (D.seen disk.new) }

    // A crash at any moment of the call leaves what it might have left before, with the write cut short.
    ensures any_moment { LeavesOnly D.moment D.left_since disk.old disk.new (TornSince (D.may_leave disk.old) from (length bytes.now)) }
    ensures failed { OnErr result (Rose (D.faults disk.old) (D.faults disk.new)) }
    ensures faults { D.faults disk.old ≤ D.faults disk.new }
{
    disk.write_at(from, bytes)?;
    disk.sync()?;
    Ok(())
}
