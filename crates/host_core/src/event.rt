//! What has happened at a host.

use edit_message::Message;
use peer_core::Peer;
use peer_step::Step;

/// What a person may do with a document.
#[derive(Clone, Copy, Debug, PartialEq, Eq)]
pub enum Role {
    /// Asks the host for orders, and writes.
    Owner,
    /// Writes.
    Writer,
    /// Is given everything, and nothing is taken from it.
    Reader,
}

/// A device of a person, whose group the person's number is. Of its secret the SHA-256 digest is known.
#[derive(Clone, Copy, PartialEq, Eq)]
pub struct Device {
    pub person: u16,
    pub role: Role,
    pub digest: [u8; 32],
}

/// What a link says first: which document it is of, which device it is, and how many messages of the journal it has.
#[derive(Clone, Copy, PartialEq, Eq)]
pub struct Hello {
    pub document: [u8; 16],
    pub site: u16,
    pub secret: [u8; 16],
    pub from: u32,
}

/// A link: its device's site, and how many links were opened before it.
#[derive(Clone, Copy, Debug, PartialEq, Eq)]
pub struct LinkId {
    pub site: u16,
    pub number: u64,
}

/// What a host knows of a link that is open: its number, what it may do, from which place of the journal on it is
/// given messages, and the place of the next one.
#[derive(Clone, Copy, Debug, PartialEq, Eq)]
pub struct OpenLink {
    pub number: u64,
    pub role: Role,
    pub from: u32,
    pub mark: u32,
}

/// What has happened. Only proofs see it.
#[derive(Drop)]
pub enum HostEvent {
    /// The host began with this peer, of this document.
    Began { peer: Peer, document: [u8; 16] },
    /// A person was made.
    PersonMade { person: u16 },
    /// A device was made, with this site.
    DeviceMade { site: u16, device: Device },
    /// A device has another secret, of this digest.
    SecretChanged { site: u16, digest: [u8; 32] },
    /// A device was closed for good.
    DeviceClosed { site: u16 },
    /// A link was opened by this hello. An older one of its site is closed by that.
    LinkOpened { hello: Hello },
    /// A link was closed.
    LinkClosed { link: LinkId },
    /// The peer made a step that a link asked for, or the host itself.
    Made { by: Option<LinkId>, step: Step },
    /// All that the journal has was saved.
    Saved,
    /// A link was given the next message of the journal.
    Gave { link: LinkId, message: Message },
    /// A link was told the answers of the steps that it asked for. All that they left was saved.
    Told { link: LinkId },
}
