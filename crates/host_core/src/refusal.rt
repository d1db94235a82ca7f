//! Why a host refuses.

use crate::keeper::KeepFail;
use edit_message::Missing;

/// Why a host refuses something. Nothing has changed then, unless the disk failed.
#[derive(Clone, Copy, Debug, PartialEq, Eq)]
pub enum Refusal {
    /// The link is of another document.
    OtherDocument,
    /// The site has no open device, or its secret is another one.
    WrongSecret,
    /// The link has more of the journal than the host has saved.
    AheadOfHost,
    /// The link isn't open.
    NoLink,
    /// A reader's link asked for something.
    ReadsAlone,
    /// The request is of another site than the link.
    ForgedSite,
    /// An entry of the log came, which the host takes from nobody.
    EntryOffered,
    /// The link's role, or the host, may not ask for such a step.
    NotAllowed,
    /// The request's stamp is above one more than the greatest: the clock would run ahead.
    StampAhead,
    /// The request misses this. A link sends in order, and the host holds nothing.
    Misses(Missing),
    /// As many requests of the link's site were denied as may be.
    DeniedTooOften,
    /// What room is left for requests is for the owners.
    OwnersReserve,
    /// There is no such person.
    NoPerson,
    /// The site has no open device.
    NoDevice,
    /// As many persons, devices or links were made as there may be.
    NumbersUsedUp,
    /// The store is full.
    StoreFull,
    /// The disk failed. What was made and isn't saved may be lost, and nothing is saved any more.
    DiskFault,
    /// Memory is wanting.
    NoMemory,
}

impl From<KeepFail> for Refusal {
    ghost use Rattle.std.specs.Prelude.{◌≡◌};
    ghost use Rattle.host_core.specs.Outside.{refusal_for};

    ghost from_gives = { λ fail e. e ≡ refusal_for fail };

    fn from(fail: KeepFail) -> Refusal {
        match fail {
            KeepFail::Full => Refusal::StoreFull,
            KeepFail::NoMemory => Refusal::NoMemory,
            KeepFail::Failed => Refusal::DiskFault,
        }
    }
}
