//! More records.
ghost use Rattle.std.specs.Prelude.{◌≡◌, ◌+◌, ◌<◌, ◌≤◌, ◌^◌, ◌++◌, ◌∷◌, [], ℕ, List, IfSome, IfOk, OnErr, length};
ghost use Rattle.edit_io.specs.Causes.{Rose};
ghost use Rattle.peer_disk.specs.Disk.{LeavesOnly};
ghost use Rattle.peer_disk.specs.Records.{records, Keeps, IsBeforeOrAfter, IsBeforeOrAll};
ghost use Rattle.peer_disk.specs.declared.layout.TheConstants.{BESIDE_BODY};

use crate::disk::Disk;
use crate::gate::put_behind;
use crate::record::Record;
use crate::records::Records;
use edit_io::Failed;

/// Adds a record to a file whose last gate stands at this place, and gives the place of the gate behind it.
///
/// At `Ok` the body is on the disk: from then on each crash leaves a file that has it. It takes two writes and
/// two syncs, whatever the length of the file, and no memory. It fails where the disk did, and the file is then to be
/// opened again: the record may be there or not.
pub fn put<D: Disk>(disk: &mut D, place: u64, body: &Record) -> Result<u64, Failed>
    requires gate { IfSome (D.seen disk.old) (λ file. place < length file) }
    requires room { place < 2 ^ 62 }

    ensures kept { IfOk result (λ next. (site : ℕ) (bodies : List (List ℕ)) → Keeps site bodies place (D.seen disk.old) (D.may_leave disk.old)
        → Keeps site (bodies ++ body.now ∷ []) next (D.seen disk.new) (D.may_leave disk.new)) }

    // A crash at any moment of the call leaves the bodies from before it, with the new one or without.
    ensures any_moment { (site : ℕ) (bodies : List (List ℕ)) → Keeps site bodies place (D.seen disk.old) (D.may_leave disk.old)
        → LeavesOnly D.moment D.left_since disk.old disk.new (IsBeforeOrAfter site bodies body.now) }

    // A gate stands there for the next one, and stays where it was otherwise.
    ensures next { IfOk result (λ next. next ≡ place + BESIDE_BODY + length body.now) }
    ensures next_gate { IfOk result (λ next. IfSome (D.seen disk.new) (λ file. next < length file)) }
    ensures gate { IfSome (D.seen disk.new) (λ file. place < length file) }

    // It gives up for a failure of the disk alone.
    ensures failed { OnErr result (Rose (D.faults disk.old) (D.faults disk.new)) }
    ensures faults { D.faults disk.old ≤ D.faults disk.new }
{
    put_behind(disk, place, body.behind())
}

/// Adds several records at once to a file whose last gate stands at this place, and gives the place of the gate behind
/// them.
///
/// At `Ok` all bodies are on the disk: from then on each crash leaves a file that has them. It takes two writes and
/// two syncs, however many there are, and no memory. It fails where the disk did, and the file is then to be opened
/// again: either all are there or none is.
pub fn put_all<D: Disk>(disk: &mut D, place: u64, more: &Records) -> Result<u64, Failed>
    requires some { more.now ≡ [] → ⊥ }
    requires gate { IfSome (D.seen disk.old) (λ file. place < length file) }
    requires room { place < 2 ^ 62 }

    ensures kept { IfOk result (λ next. (site : ℕ) (bodies : List (List ℕ)) → Keeps site bodies place (D.seen disk.old) (D.may_leave disk.old)
        → Keeps site (bodies ++ more.now) next (D.seen disk.new) (D.may_leave disk.new)) }

    // A crash at any moment of the call leaves the bodies from before it, with all new ones or with none of them.
    ensures any_moment { (site : ℕ) (bodies : List (List ℕ)) → Keeps site bodies place (D.seen disk.old) (D.may_leave disk.old)
        → LeavesOnly D.moment D.left_since disk.old disk.new (IsBeforeOrAll site bodies more.now) }

    // A gate stands there for the next one, and stays where it was otherwise.
    ensures next { IfOk result (λ next. next ≡ place + length (records more.now)) }
    ensures next_gate { IfOk result (λ next. IfSome (D.seen disk.new) (λ file. next < length file)) }
    ensures gate { IfSome (D.seen disk.new) (λ file. place < length file) }

    // It gives up for a failure of the disk alone.
    ensures failed { OnErr result (Rose (D.faults disk.old) (D.faults disk.new)) }
    ensures faults { D.faults disk.old ≤ D.faults disk.new }
{
    put_behind(disk, place, more.behind())
}
