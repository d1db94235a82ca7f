//! Laws of what happens at hosts. They hold of each host at every moment, since what has happened at it is a past. Each
//! has a sample, a small past on which its premises hold.
ghost use Rattle.std.specs.Prelude.{◌≡◌};
ghost use Rattle.host_core.specs.Samples.{SampleHappens, SampleGiven, SampleDoor, SampleClosed};
ghost use Rattle.host_core.specs.Samples.{AuthenticSample, OrderedSample, SavedSample, NoForkSample, InOrderSample, ClosedSample, DeviceClosedSample, ShareSample, PageSample};
ghost use Rattle.host_core.specs.Laws.{AuthenticLaw, OrderedLaw, SavedLaw, BeginningLaw, WholeSavedLaw, ToldLaw, NoForkLaw, InOrderLaw, AllGivenLaw, ClosedLaw, DeviceClosedLaw, HeldLaw, ClockLaw, ReserveLaw, ShareLaw, GoesOnLaw, ReplayLaw, PageLaw};

use crate::limits::{LINK_REQUESTS, MAX_DENIED, MAX_OPENED, MAX_PEOPLE, MAX_SITES};

/// Each request that the host has was there at the start, or is of the host's own site, or came on a link, open then,
/// that had shown the secret of the request's site. Each entry was there at the start, or was issued for an owner.
pub fn authentic()
    ensures requests { AuthenticLaw }
    ensures entries { OrderedLaw }
    ensures request_sample { AuthenticSample }
    ensures entry_sample { OrderedSample }
{}

/// Each message that a link was given was saved by then, and what is saved is a beginning of the journal. What came of a
/// step is saved once as many messages are as the journal had right after it. When a link is told the answers of its
/// steps, all that they left is saved.
pub fn saved_before_told()
    ensures given { SavedLaw }
    ensures answered { WholeSavedLaw }
    ensures told { ToldLaw }
    ensures beginning { BeginningLaw }
    ensures sample { SavedSample }
{}

/// Over crashes and restarts no link is given two messages under one name or one version.
pub fn no_fork()
    ensures law { NoForkLaw }
    ensures sample { NoForkSample }
{}

/// What a link said that it has of the journal, and what it was given behind it, are a beginning of the journal: each
/// message once, in order, and none is skipped. Where there is nothing more to give it has all that is saved.
pub fn in_order()
    ensures order { InOrderLaw }
    ensures whole { AllGivenLaw }
    ensures sample { InOrderSample }
{}

/// A link that was closed is given and told nothing more, and nothing of it is taken. After a device was closed nothing of its
/// site happens any more.
pub fn closed_is_closed()
    ensures link { ClosedLaw }
    ensures device { DeviceClosedLaw }
    ensures link_sample { ClosedSample }
    ensures device_sample { DeviceClosedSample }
{}

/// A host that began with nothing held holds nothing, and its clock runs by one for each request at most. What a link
/// offers takes no version, and none of the requests that are left to the owners; and no more requests of a site are
/// denied as they come than may be. So where a host's clock wasn't late when it began, nothing that a link offers stops a
/// step, be it the host's or a page's that has its journal: none finds the end of the clock, a full hold or a full history,
/// nor a full log but one that was full before.
pub fn nobody_stops_the_others()
    ensures held { HeldLaw }
    ensures clock { ClockLaw }
    ensures reserve { ReserveLaw }
    ensures share { ShareLaw }
    ensures goes_on { GoesOnLaw }
    ensures sample { ShareSample }
{}

/// The host's peer is the one that it began with, after all steps that were made, in order. A page that has its
/// journal, and nothing else, shows the same text.
pub fn same_text()
    ensures replay { ReplayLaw }
    ensures page { PageLaw }
    ensures sample { PageSample }
{
    peer_tables::laws::same_sets();
}

/// A small past: a device opens a link, offers a request, and is given it once it is saved.
pub fn sample_past()
    ensures happens { SampleHappens }
    ensures given { SampleGiven }
    ensures door { SampleDoor }
    ensures closed { SampleClosed }
{}

/// The limits in numbers.
pub fn limits()
    ensures people { MAX_PEOPLE ≡ 65536 }
    ensures sites { MAX_SITES ≡ 65535 }
    ensures opened { MAX_OPENED ≡ 4611686018427387904 }
    ensures link_requests { LINK_REQUESTS ≡ 126976 }
    ensures denied { MAX_DENIED ≡ 1000 }
{}
