//! Why a document isn't renewed.
ghost use Rattle.std.specs.Prelude.{◌≡◌};
ghost use Rattle.host_renewal.specs.declared.fault.RenewalFault.TheVariants as faults;
ghost use Rattle.host_renewal.specs.Faults.{renewal_fault, keeper_fault};

use element_name::NoMemory;
use host_core::KeepFail;
use peer_renewal::RenewFail;

/// Why a document isn't renewed. It is as it was.
#[derive(Clone, Copy, Debug, PartialEq, Eq)]
pub enum RenewalFault {
    /// Its text is cut into more pieces than a history may have requests.
    TooManyPieces,
    /// Its rules take more entries than a log may have.
    TooManyEntries,
    /// What was made isn't a renewal. No document is known with which this comes, and it isn't proved that there is none.
    NotAlike,
    /// It isn't open.
    NotOpen,
    /// The file has no room for it.
    StoreFull,
    /// The disk failed.
    DiskFault,
    /// Memory is wanting.
    NoMemory,
}

impl From<NoMemory> for RenewalFault {
    ghost from_gives = { λ _ f. f ≡ faults.NoMemory };

    fn from(_: NoMemory) -> RenewalFault {
        RenewalFault::NoMemory
    }
}

impl From<RenewFail> for RenewalFault {
    ghost from_gives = { λ fail f. f ≡ renewal_fault fail };

    fn from(fail: RenewFail) -> RenewalFault {
        match fail {
            RenewFail::TooManyPieces => RenewalFault::TooManyPieces,
            RenewFail::TooManyEntries => RenewalFault::TooManyEntries,
            RenewFail::NotAlike => RenewalFault::NotAlike,
            RenewFail::NoMemory => RenewalFault::NoMemory,
        }
    }
}

impl From<KeepFail> for RenewalFault {
    ghost from_gives = { λ fail f. f ≡ keeper_fault fail };

    fn from(fail: KeepFail) -> RenewalFault {
        match fail {
            KeepFail::Full => RenewalFault::StoreFull,
            KeepFail::NoMemory => RenewalFault::NoMemory,
            KeepFail::Failed => RenewalFault::DiskFault,
        }
    }
}

impl RenewalFault {
    /// The words that tell it to who ordered the renewal.
    pub fn words(self) -> &'static str {
        match self {
            RenewalFault::TooManyPieces => "too long a text",
            RenewalFault::TooManyEntries => "too many rules",
            RenewalFault::NotAlike => "not alike",
            RenewalFault::NotOpen => "the document can't be opened",
            RenewalFault::StoreFull => "the store is full",
            RenewalFault::DiskFault => "the disk failed",
            RenewalFault::NoMemory => "no memory",
        }
    }
}
