//! How far a link came.

use crate::socket::{Greeting, Socket};
use mio::net::TcpStream;

/// A link that was let in.
#[derive(Drop)]
pub(crate) struct Linked {
    pub(crate) socket: Socket,
    /// Whether it may send requests.
    pub(crate) writes: bool,
    /// Whether the socket keeps something that it couldn't send yet.
    pub(crate) is_blocked: bool,
    /// How many messages of its journal the host had saved when it let the link in.
    pub(crate) saved: u32,
}

/// How far a link came.
#[derive(Drop)]
pub(crate) enum Stage {
    /// There is none, until it is tried again.
    Apart,
    /// It is connecting.
    Dialling(TcpStream),
    /// The upgrade was asked for.
    Greeting(Greeting),
    /// A first message was sent, and is to be answered.
    Opening(Socket),
    /// It was let in.
    Linked(Linked),
}
