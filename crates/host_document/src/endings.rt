//! Why a link ends that a host refuses.
ghost use Rattle.std.specs.Prelude.{◌≡◌};
ghost use Rattle.host_interface.specs.Endings.{ending_of};

use host_core::Refusal;
use host_link::Ending;

/// Why a link ends whose host refuses so.
pub(crate) fn ending_of(refusal: Refusal) -> Ending
    ensures { result ≡ ending_of refusal }
{
    match refusal {
        Refusal::OtherDocument => Ending::OtherDocument,
        Refusal::WrongSecret => Ending::WrongSecret,
        Refusal::AheadOfHost => Ending::AheadOfHost,
        Refusal::NoLink => Ending::NoDocument,
        Refusal::ReadsAlone => Ending::OnlyReads,
        Refusal::ForgedSite => Ending::ForgedSite,
        Refusal::EntryOffered => Ending::EntryOffered,
        Refusal::NotAllowed => Ending::OnlyReads,
        Refusal::StampAhead => Ending::StampAhead,
        Refusal::Misses(_) => Ending::Misses,
        Refusal::DeniedTooOften => Ending::DeniedTooOften,
        Refusal::OwnersReserve => Ending::OwnersReserve,
        Refusal::NoPerson => Ending::WrongSecret,
        Refusal::NoDevice => Ending::WrongSecret,
        Refusal::NumbersUsedUp => Ending::TooManyDevices,
        Refusal::StoreFull => Ending::StoreFull,
        Refusal::DiskFault => Ending::DiskFault,
        Refusal::NoMemory => Ending::NoMemory,
    }
}
