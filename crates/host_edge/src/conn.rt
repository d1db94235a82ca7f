//! A connection, from its first byte to its last.

use host_core::LinkId;
use host_link::Ending;
use host_socket::{Network, Socket};
use mio::net::TcpStream;
use std::net::IpAddr;

/// Where a link leads.
#[derive(Clone, Copy, PartialEq, Eq)]
pub(crate) enum Place {
    /// To the house: documents and people.
    House,
    /// To the document of a number.
    Document(usize),
}

/// A connection whose request comes.
#[derive(Drop)]
pub(crate) struct Asking {
    pub(crate) stream: TcpStream,
    /// The address at its other end.
    pub(crate) peer: IpAddr,
    pub(crate) head: Vec<u8>,
}

/// A connection that is answered: bytes, and then a file of the page, from a place on.
#[derive(Drop)]
pub(crate) struct Answering {
    pub(crate) stream: TcpStream,
    pub(crate) bytes: Vec<u8>,
    pub(crate) file: Option<usize>,
    pub(crate) at: usize,
}

/// A socket that has to show a secret.
#[derive(Drop)]
pub(crate) struct Unknown {
    pub(crate) socket: Socket,
    pub(crate) place: Place,
    /// From where its keys come, where wrong ones are counted.
    pub(crate) from: Option<Network>,
}

/// A link that was welcomed.
#[derive(Drop)]
pub(crate) struct Linked {
    pub(crate) socket: Socket,
    pub(crate) place: Place,
    /// By what the document's host knows it; nothing at the house.
    pub(crate) link: LinkId,
    pub(crate) site: u16,
    pub(crate) person: u16,
    /// Whether what it sends is taken.
    pub(crate) writes: bool,
    /// Answers that go once all is saved.
    pub(crate) answers: Vec<String>,
    /// The turn in which the last of them came.
    pub(crate) answered: u64,
    /// When it is pinged.
    pub(crate) ping_at: u64,
    /// The news that it was told: of people, of who is here.
    pub(crate) told_people: u64,
    pub(crate) told_here: u64,
    /// Since when the socket takes nothing, if it doesn't.
    pub(crate) blocked: Option<u64>,
}

/// A socket that ends: it is told why, at a time, and the other side's close is awaited.
#[derive(Drop)]
pub(crate) struct Closing {
    pub(crate) socket: Socket,
    /// What it is still to be told.
    pub(crate) why: Option<Ending>,
}

/// Where a connection stands.
#[derive(Drop)]
pub(crate) enum Stage {
    Asking(Asking),
    Answering(Answering),
    Unknown(Unknown),
    Linked(Linked),
    Closing(Closing),
}

/// A connection.
#[derive(Drop)]
pub(crate) struct Conn {
    pub(crate) stage: Stage,
    // When its stage has to be left, in milliseconds since the host began; a link: when something must have come.
    pub(crate) until: u64,
    // Whether there may be more to do, though no event will say so.
    pub(crate) unread: bool,
}

impl Conn {
    /// A connection that waits for an event.
    pub(crate) fn waiting(stage: Stage, until: u64) -> Conn {
        Conn {
            stage,
            until,
            unread: false,
        }
    }

    /// A connection that may have more to do, though no event will say so.
    pub(crate) fn ready(stage: Stage, until: u64) -> Conn {
        Conn {
            stage,
            until,
            unread: true,
        }
    }

    /// The link that a connection is, with until when something must have come on it, and whether there may be more to do. The
    /// connection itself if it is no link.
    pub(crate) fn into_link(self) -> Result<(Linked, u64, bool), Conn> {
        let Conn {
            stage,
            until,
            unread,
        } = self;
        match stage {
            Stage::Linked(linked) => Ok((linked, until, unread)),
            stage => Err(Conn {
                stage,
                until,
                unread,
            }),
        }
    }
}
