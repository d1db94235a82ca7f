//! What is written behind a gate.
ghost use Rattle.std.specs.Prelude.{◌≡◌, ◌+◌, ◌<◌, ◌≤◌, ◌^◌, ◌++◌, ℕ, List, IfSome, IfOk, OnErr, length};
ghost use Rattle.edit_io.specs.Causes.{Rose};
ghost use Rattle.peer_disk.specs.Disk.{LeavesOnly};
ghost use Rattle.peer_disk.specs.Records.{Keeps, AreBehindGate, IsBeforeOrAll};

use crate::disk::Disk;
use crate::layout::OPEN;
use crate::synced::write_synced;
use edit_io::Failed;

/// Writes bytes behind the gate at this place, syncs, and then opens the gate and syncs; gives the place of the gate
/// behind them.
///
/// All inner gates of the bytes are open, and the one at their end is closed. So whatever a crash makes of the first
/// write stands behind a closed gate, and the second opens the way to all bodies at once.
pub(crate) fn put_behind<D: Disk>(disk: &mut D, place: u64, behind: &[u8]) -> Result<u64, Failed>
    requires gate { IfSome (D.seen disk.old) (λ file. place < length file) }
    requires room { place < 2 ^ 62 }

    ensures kept { IfOk result (λ next. (site : ℕ) (bodies more : List (List ℕ)) → AreBehindGate more behind.now → Keeps site bodies place (D.seen disk.old) (D.may_leave disk.old)
        → Keeps site (bodies ++ more) next (D.seen disk.new) (D.may_leave disk.new)) }
    ensures any_moment { (site : ℕ) (bodies more : List (List ℕ)) → AreBehindGate more behind.now → Keeps site bodies place (D.seen disk.old) (D.may_leave disk.old)
        → LeavesOnly D.moment D.left_since disk.old disk.new (IsBeforeOrAll site bodies more) }
    ensures next { IfOk result (λ next. next ≡ place + length behind.now) }
    ensures next_gate { IfOk result (λ next. IfSome (D.seen disk.new) (λ file. next < length file)) }
    ensures gate { IfSome (D.seen disk.new) (λ file. place < length file) }
    ensures failed { OnErr result (Rose (D.faults disk.old) (D.faults disk.new)) }
    ensures faults { D.faults disk.old ≤ D.faults disk.new }
{
    write_synced(disk, place + 1, behind)?;
    write_synced(disk, place, &[OPEN])?;
    Ok(place + behind.len() as u64)
}
