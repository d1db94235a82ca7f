//! A new file of records.
ghost use Rattle.std.specs.Prelude.{◌≡◌, ◌<◌, ◌≤◌, length, ◌++◌, ◌∷◌, [], IfSome, IfOk, OnErr, OnOk, IsSome};
ghost use Rattle.edit_io.specs.Causes.{Rose};
ghost use Rattle.peer_disk.specs.Disk.{Only, LeavesOnly};
ghost use Rattle.peer_disk.specs.Records.{file_head, Keeps, HasNoneIfAny};

use crate::disk::Disk;
use crate::layout::{CLOSED, FIRST_BYTE, FIRST_GATE};
use crate::synced::write_synced;
use edit_io::Failed;

// A file of this site with no bodies.
fn new_file(site: u16) -> [u8; 4]
    ensures { result ≡ file_head site ++ CLOSED ∷ [] }
{
    let [high, low] = site.to_be_bytes();
    [FIRST_BYTE, high, low, CLOSED]
}

/// Makes a file of this site with no bodies on an empty disk, and gives the place of its gate.
///
/// At an error the disk may have any of its bytes: it is to be emptied, and made again.
pub fn create<D: Disk>(disk: &mut D, site: u16) -> Result<u64, Failed>
    requires { IfSome (D.seen disk.old) (λ file. file ≡ []) }

    ensures kept { IfOk result (λ place. IsSome (D.seen disk.old) → Keeps site [] place (D.seen disk.new) (D.may_leave disk.new)) }

    // Its gate stands there.
    ensures gate { IfOk result (λ place. IfSome (D.seen disk.new) (λ file. place < length file)) }

    // A crash at any moment leaves an empty disk, no file of this site, or the file with no bodies.
    ensures any_moment { Only [] (D.may_leave disk.old) → LeavesOnly D.moment D.left_since disk.old disk.new (HasNoneIfAny site) }
    ensures failed { OnErr result (Rose (D.faults disk.old) (D.faults disk.new)) }
    ensures faults { D.faults disk.old ≤ D.faults disk.new }
{
    write_synced(disk, 0, &new_file(site))?;
    Ok(FIRST_GATE)
}
