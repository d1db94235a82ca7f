//! The store that a run keeps its peer in.
ghost use Rattle.std.specs.Prelude.{IfOk, IfErr};
ghost use Rattle.peer_store.specs.Store.{HasGate};
ghost use Rattle.form_keep.specs.Stopping.{KeepCause};
ghost use Rattle.form_keep.specs.Keeping.{OpenedStore, OpenStops};

use crate::stopped::Stopped;
use peer_disk::Disk;
use peer_store::Store;
use std::alloc::Global;

/// Makes the store of a site on an empty disk, and opens it on another.
pub(crate) fn open_store<D: Disk>(alloc: Global, disk: &mut D, site: u16) -> Result<Store, Stopped>
    ensures opened { IfOk result (λ store. OpenedStore site (D.seen disk.old) store (D.seen disk.new) (D.may_leave disk.new)) }
    ensures gate { IfOk result (λ store. HasGate store (D.seen disk.new)) }
    ensures stops { IfErr result (λ stopped. OpenStops stopped site (D.seen disk.old)) }
    ensures cause { KeepCause (D.faults disk.old) (D.faults disk.new) result }
{
    let Ok(len) = disk.len() else {
        return Err(Stopped::DiskFault);
    };
    if len == 0 {
        return Ok(Store::create(alloc, disk, site)?);
    }
    Ok(Store::open(alloc, disk, site)?)
}
