//! Why a link is closed.
ghost use Rattle.std.specs.Prelude.{◌≡◌};
ghost use Rattle.host_link.specs.Closes.{close_code, close_words};

/// Why a link is closed by the host.
#[derive(Clone, Copy, Debug, PartialEq, Eq)]
pub enum Ending {
    /// The host ends.
    GoingAway,
    /// It speaks another version of the protocol.
    OtherVersion,
    /// A message came that is none.
    BadMessage,
    /// A reader's link sent something.
    OnlyReads,
    /// It showed no secret in time, or nothing came for too long.
    Silent,
    /// It didn't take what it was sent in time.
    Slow,
    /// It knows another document than the one that it asked for.
    OtherDocument,
    /// There is no such document, or it can't be opened.
    NoDocument,
    /// The document was renewed: a new one has its place and its text.
    Renewed,
    /// Its device was closed.
    Closed,
    /// A newer link of its device stands.
    Replaced,
    /// Its person has as many links as he may.
    TooManyLinks,
    /// The document has as many devices as it may.
    TooManyDevices,
    /// Its person was given another role: it is to be made anew.
    NewRole,
    /// It showed no secret of an open device or invitation.
    WrongSecret,
    /// Too many wrong secrets came from its network lately.
    TooManyTries,
    /// It handed in a request of another site.
    ForgedSite,
    /// It handed in an entry.
    EntryOffered,
    /// It has more of the journal than the host has saved.
    AheadOfHost,
    /// It handed in a request whose stamp is too far ahead.
    StampAhead,
    /// It handed in a request in front of what that needs.
    Misses,
    /// It handed in too many requests that were denied.
    DeniedTooOften,
    /// What room is left is for the owners.
    OwnersReserve,
    /// The store is full.
    StoreFull,
    /// The disk failed.
    DiskFault,
    /// Memory is wanting.
    NoMemory,
}

/// How many there are.
pub const ENDINGS: usize = 26;

/// All of them.
pub const ALL_ENDINGS: [Ending; ENDINGS] = [
    Ending::GoingAway,
    Ending::OtherVersion,
    Ending::BadMessage,
    Ending::OnlyReads,
    Ending::Silent,
    Ending::Slow,
    Ending::OtherDocument,
    Ending::NoDocument,
    Ending::Renewed,
    Ending::Closed,
    Ending::Replaced,
    Ending::TooManyLinks,
    Ending::TooManyDevices,
    Ending::NewRole,
    Ending::WrongSecret,
    Ending::TooManyTries,
    Ending::ForgedSite,
    Ending::EntryOffered,
    Ending::AheadOfHost,
    Ending::StampAhead,
    Ending::Misses,
    Ending::DeniedTooOften,
    Ending::OwnersReserve,
    Ending::StoreFull,
    Ending::DiskFault,
    Ending::NoMemory,
];

impl Ending {
    // The number and the words.
    fn told(self) -> (u16, &'static str)
        ensures code { result.0 ≡ close_code self }
        ensures words { result.1.now ≡ close_words self }
    {
        match self {
            Ending::GoingAway => (1001, "the host ends"),
            Ending::OtherVersion => (4000, "version 1 of the protocol is spoken here"),
            Ending::BadMessage => (4002, "no message of the protocol"),
            Ending::OnlyReads => (4005, "a reader's link"),
            Ending::Silent => (4007, "silent for too long"),
            Ending::Slow => (4008, "took nothing for too long"),
            Ending::OtherDocument => (4013, "another document"),
            Ending::NoDocument => (4014, "no such document"),
            Ending::Renewed => (4024, "the document was renewed"),
            Ending::Closed => (4015, "the device was closed"),
            Ending::Replaced => (4016, "a newer link of this device"),
            Ending::TooManyLinks => (4017, "too many links of this person"),
            Ending::TooManyDevices => (4018, "too many devices in this document"),
            Ending::NewRole => (4019, "another role of this person"),
            Ending::WrongSecret => (4001, "no such device, or another secret"),
            Ending::TooManyTries => (4009, "too many wrong keys: try again in a minute"),
            Ending::ForgedSite => (4003, "a request of another site"),
            Ending::EntryOffered => (4004, "an entry"),
            Ending::AheadOfHost => (4006, "ahead of the host"),
            Ending::StampAhead => (4020, "a stamp too far ahead"),
            Ending::Misses => (4021, "a request in front of what it needs"),
            Ending::DeniedTooOften => (4022, "too many requests were denied"),
            Ending::OwnersReserve => (4023, "what room is left is for the owners"),
            Ending::StoreFull => (4010, "the store is full"),
            Ending::DiskFault => (4011, "the disk failed"),
            Ending::NoMemory => (4012, "no memory"),
        }
    }

    /// The code of the close.
    pub fn code(self) -> u16
        ensures { result ≡ close_code self }
    {
        self.told().0
    }

    /// The reason that the close says.
    pub fn words(self) -> &'static str
        ensures { result.now ≡ close_words self }
    {
        self.told().1
    }
}
