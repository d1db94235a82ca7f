//! Why messages give no peer.

use element_name::NoMemory;

/// Why messages give no peer.
#[derive(Clone, Copy, Debug, PartialEq, Eq)]
pub enum RestoreFail {
    /// The message at this place, from 0, is the first with which they are no journal, or one above its limits.
    NotJournal(usize),
    /// Memory was wanting.
    NoMemory,
}

impl From<NoMemory> for RestoreFail {
    ghost use Rattle.std.specs.Prelude.{◌≡◌};
    ghost use Rattle.peer_core.specs.declared.restore.RestoreFail.TheVariants as fails;

    ghost from_gives = { λ _ f. f ≡ fails.NoMemory };

    fn from(_e: NoMemory) -> RestoreFail {
        RestoreFail::NoMemory
    }
}
