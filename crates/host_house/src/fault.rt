//! Why a house isn't opened, or a change of it isn't made.

use element_name::NoMemory;
use host_people::BookFault;
use host_renewal::RenewalFault;
use std::alloc::{AllocError, AllocFailed};
use std::io;

/// Why a house can't be opened, or a change of it isn't made.
#[derive(Clone, Copy, Debug, PartialEq, Eq)]
pub enum HouseFault {
    /// The file of its people can't be used.
    Book(BookFault),
    /// The folder, or the system's randomness, failed.
    Failed,
    /// No person, invitation or device of this number is there.
    Nobody,
    /// There is no such document, or there is one already.
    NoDocument,
    /// The document isn't renewed.
    Renewal(RenewalFault),
    /// Memory is wanting.
    NoMemory,
}

impl From<BookFault> for HouseFault {
    fn from(fault: BookFault) -> HouseFault {
        HouseFault::Book(fault)
    }
}

impl From<RenewalFault> for HouseFault {
    fn from(fault: RenewalFault) -> HouseFault {
        HouseFault::Renewal(fault)
    }
}

impl From<NoMemory> for HouseFault {
    fn from(_: NoMemory) -> HouseFault {
        HouseFault::NoMemory
    }
}

impl From<AllocError> for HouseFault {
    fn from(_: AllocError) -> HouseFault {
        HouseFault::NoMemory
    }
}

impl<T: Drop> From<AllocFailed<T>> for HouseFault {
    fn from(_: AllocFailed<T>) -> HouseFault {
        HouseFault::NoMemory
    }
}

impl From<io::Error> for HouseFault {
    fn from(_: io::Error) -> HouseFault {
        HouseFault::Failed
    }
}

impl HouseFault {
    /// The words that tell it to who ordered the change.
    pub(crate) fn words(self) -> &'static str {
        match self {
            HouseFault::Book(BookFault::Full) => "all numbers are given",
            HouseFault::Book(BookFault::NoMemory) => "no memory",
            HouseFault::Book(_) => "the file of people failed",
            HouseFault::Failed => "the folder failed",
            HouseFault::Nobody => "nobody of this number",
            HouseFault::NoDocument => "no such document, or there is one",
            HouseFault::Renewal(fault) => fault.words(),
            HouseFault::NoMemory => "no memory",
        }
    }
}
