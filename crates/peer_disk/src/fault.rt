//! Why a file of records couldn't be read.
ghost use Rattle.std.specs.Prelude.{◌≡◌};
ghost use Rattle.peer_disk.specs.declared.fault.LoadFault.TheVariants as faults;

use edit_io::Failed;
use std::alloc::{AllocError, AllocFailed};

/// Why the bodies of a file couldn't be read.
#[derive(Clone, Copy, Debug, PartialEq, Eq)]
pub enum LoadFault {
    /// The disk failed, and counted it.
    DiskFault,
    /// No memory was found for the bytes.
    NoMemory,
    /// It doesn't begin as a file of this site.
    NoHead,
}

impl From<AllocError> for LoadFault {
    ghost from_gives = { λ _ f. f ≡ faults.NoMemory };

    fn from(_: AllocError) -> Self {
        LoadFault::NoMemory
    }
}

impl<T: Drop> From<AllocFailed<T>> for LoadFault {
    ghost from_gives = { λ _ f. f ≡ faults.NoMemory };

    fn from(_: AllocFailed<T>) -> Self {
        LoadFault::NoMemory
    }
}

impl From<Failed> for LoadFault {
    ghost from_gives = { λ _ f. f ≡ faults.DiskFault };

    fn from(_: Failed) -> Self {
        LoadFault::DiskFault
    }
}
