//! Why a run ends before its closing lines.
ghost use Rattle.std.specs.Prelude.{◌≡◌};
ghost use Rattle.form_keep.specs.declared.stopped.Stopped.TheVariants as stops;
ghost use Rattle.form_keep.specs.Stopping.{stop_of_fault};

use element_name::NoMemory;
use peer_store::StoreFault;

/// Why a run ends before its closing lines.
#[derive(Clone, Copy, Debug, PartialEq, Eq)]
pub enum Stopped {
    /// The line of this number, counted from 1, is bad.
    BadLine(u64),
    /// The input is longer than its limit, and the lines that end within it are good.
    TooLong,
    /// The source failed.
    ReadFault,
    /// The sink failed.
    WriteFault,
    /// Memory was wanting.
    NoMemory,
    /// The disk failed.
    DiskFault,
    /// The file is no store of the site from this offset on.
    BadStore(u64),
    /// The file has no room for one more step.
    StoreFull,
}

impl From<NoMemory> for Stopped {
    ghost from_gives = { λ _ e. e ≡ stops.NoMemory };

    fn from(_: NoMemory) -> Self {
        Stopped::NoMemory
    }
}

impl From<StoreFault> for Stopped {
    ghost from_gives = { λ fault e. e ≡ stop_of_fault fault };

    fn from(fault: StoreFault) -> Self {
        match fault {
            StoreFault::DiskFault | StoreFault::Spent => Stopped::DiskFault,
            StoreFault::NotAStore(offset) => Stopped::BadStore(offset),
            StoreFault::StoreFull => Stopped::StoreFull,
            StoreFault::NoMemory => Stopped::NoMemory,
        }
    }
}
