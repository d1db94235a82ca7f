//! Why a store gives up.
ghost use Rattle.std.specs.Prelude.{◌≡◌};
ghost use Rattle.peer_store.specs.declared.fault.StoreFault.TheVariants as faults;
ghost use Rattle.peer_store.specs.Faults.{fault_of_load};

use edit_io::Failed;
use element_name::NoMemory;
use peer_disk::LoadFault;

/// Why a store can't be made or opened, or a step can't be put.
#[derive(Clone, Copy, Debug, PartialEq, Eq)]
pub enum StoreFault {
    /// The disk failed, and counted it. The store is to be opened again: the last step may be in it or not.
    DiskFault,
    /// The file is no store of this site. It isn't from this offset on: 0 for its first three bytes, and otherwise the
    /// place of the first gate that is missing, or whose record isn't whole or is of no step that changes the peer.
    NotAStore(u64),
    /// The disk failed while an earlier step was put.
    Spent,
    /// The file has no room for one more step.
    StoreFull,
    /// Memory was wanting.
    NoMemory,
}

impl From<NoMemory> for StoreFault {
    ghost from_gives = { λ _ e. e ≡ faults.NoMemory };

    fn from(_: NoMemory) -> Self {
        StoreFault::NoMemory
    }
}

impl From<Failed> for StoreFault {
    ghost from_gives = { λ _ e. e ≡ faults.DiskFault };

    fn from(_: Failed) -> Self {
        StoreFault::DiskFault
    }
}

impl From<LoadFault> for StoreFault {
    ghost from_gives = { λ load e. e ≡ fault_of_load load };

    fn from(load: LoadFault) -> Self {
        match load {
            LoadFault::DiskFault => StoreFault::DiskFault,
            LoadFault::NoMemory => StoreFault::NoMemory,
            LoadFault::NoHead => StoreFault::NotAStore(0),
        }
    }
}
