//! Why nothing is renewed.
ghost use Rattle.std.specs.Prelude.{◌≡◌};
ghost use Rattle.peer_renewal.specs.declared.fail.RenewFail.TheVariants as fails;

use element_name::NoMemory;

/// Why a peer isn't renewed. It is as it was, since it was only read.
#[derive(Clone, Copy, Debug, PartialEq, Eq)]
pub enum RenewFail {
    /// The text is cut into more pieces than a history may have requests.
    TooManyPieces,
    /// The rules take more entries than a log may have.
    TooManyEntries,
    /// What was made isn't a renewal. No peer is known with which this comes, and it isn't proved that there is none.
    NotAlike,
    /// Memory was wanting.
    NoMemory,
}

impl From<NoMemory> for RenewFail {
    ghost from_gives = { λ _ f. f ≡ fails.NoMemory };

    fn from(_e: NoMemory) -> RenewFail {
        RenewFail::NoMemory
    }
}
