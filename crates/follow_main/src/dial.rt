//! Links that are opened.

use crate::address::Address;
use crate::socket::{Greeting, Keys, Socket, limits};
use http::Request;
use mio::net::TcpStream;
use mio::{Interest, Poll, Token};
use std::alloc::{AllocError, Global};
use std::io::{self, ErrorKind};
use std::net::{SocketAddr, ToSocketAddrs};
use std::random::RandomSource;
use tungstenite::handshake::client;
use tungstenite::{Error, HandshakeError, RandomKeys};

/// What events name the link by.
pub(crate) const LINK: Token = Token(1);

// How many random bytes one that asks for a link sends, for the other end to answer by.
const NONCE: usize = 16;

// The status by which a host answers who asks for a document that it hasn't.
const NOT_FOUND: u16 = 404;

/// How far a connection came.
#[derive(Drop)]
pub(crate) enum Reached {
    Waits(TcpStream),
    Connected(TcpStream),
    Failed,
}

/// How far an upgrade came.
#[derive(Drop)]
pub(crate) enum Greeted {
    Waits(Greeting),
    Open(Socket),
    /// The host has no document of this name.
    Missing,
    Failed,
}

// The places of a host.
fn places_of(rt: &HostRuntime, address: Address<'_>) -> io::Result<Vec<SocketAddr>> {
    let mut places = Vec::new(rt.alloc());
    for place in (address.host, address.port).to_socket_addrs(rt)? {
        places.push(place)?;
    }
    Ok(places)
}

// One of places: each time that it is tried the next.
fn place_for(places: &[SocketAddr], tries: usize) -> io::Result<SocketAddr> {
    let number = tries.checked_rem(places.len()).unwrap_or(0);
    match places.get(number) {
        Some(place) => Ok(*place),
        None => Err(ErrorKind::NotFound.into()),
    }
}

/// Begins to connect. It counts how often that was tried.
pub(crate) fn dial(
    rt: &HostRuntime,
    poll: &Poll,
    address: Address<'_>,
    tries: usize,
) -> io::Result<TcpStream> {
    let places = places_of(rt, address)?;
    let place = place_for(&places, tries);
    drop(places);
    let mut stream = TcpStream::connect(rt, place?)?;
    let both = Interest::READABLE | Interest::WRITABLE;
    poll.registry().register(&mut stream, LINK, both)?;
    Ok(stream)
}

/// Whether a stream is connected.
pub(crate) fn reach(stream: TcpStream) -> Reached {
    match stream.take_error() {
        Ok(None) => {}
        _ => return Reached::Failed,
    }
    match stream.peer_addr() {
        Ok(_) => {
            let _ = stream.set_nodelay(true);
            Reached::Connected(stream)
        }
        Err(error) if error.kind() == ErrorKind::NotConnected => Reached::Waits(stream),
        Err(_) => Reached::Failed,
    }
}

// Where the links of a document are.
fn link_place(alloc: Global, address: Address<'_>) -> Result<String, AllocError> {
    let Address {
        host,
        port,
        path,
        ..
    } = address;
    if host.contains(':') {
        return format!(in alloc; "ws://[{host}]:{port}/{path}/link");
    }
    format!(in alloc; "ws://{host}:{port}/{path}/link")
}

// The request of an upgrade.
fn request_for(alloc: Global, address: Address<'_>) -> Result<Request<()>, Error> {
    let place = link_place(alloc, address)?;
    let request = client::request_of(alloc, place.as_str());
    drop(place);
    request
}

// Random bytes.
fn nonce(rt: &HostRuntime) -> io::Result<[u8; NONCE]> {
    let mut nonce = [0; NONCE];
    rt.fill_bytes(&mut nonce)?;
    Ok(nonce)
}

// Asks for the upgrade of a stream.
fn ask(rt: &HostRuntime, request: Request<()>, stream: TcpStream) -> Result<Greeting, Error> {
    match nonce(rt) {
        Ok(nonce) => {
            let keys: Keys = RandomKeys::new(*rt);
            client::start(rt.alloc(), nonce, keys, request, stream, Some(limits()))
        }
        Err(error) => {
            drop(request);
            drop(stream);
            Err(Error::Io(error))
        }
    }
}

// Asks for the upgrade of a stream at the place of an address.
fn asked(rt: &HostRuntime, address: Address<'_>, stream: TcpStream) -> Result<Greeting, Error> {
    match request_for(rt.alloc(), address) {
        Ok(request) => ask(rt, request, stream),
        Err(error) => {
            drop(stream);
            Err(error)
        }
    }
}

// What an error of an upgrade says.
fn failed(error: &Error) -> Greeted {
    match error {
        Error::Http(response) if response.status().as_u16() == NOT_FOUND => Greeted::Missing,
        _ => Greeted::Failed,
    }
}

/// Goes on with an upgrade.
pub(crate) fn greet(greeting: Greeting) -> Greeted {
    match greeting.handshake() {
        Ok((socket, answer)) => {
            drop(answer);
            Greeted::Open(socket)
        }
        Err(HandshakeError::Interrupted(greeting)) => Greeted::Waits(greeting),
        Err(HandshakeError::Failure(error)) => {
            let greeted = failed(&error);
            drop(error);
            greeted
        }
    }
}

/// Begins the upgrade of a stream.
pub(crate) fn begin(rt: &HostRuntime, address: Address<'_>, stream: TcpStream) -> Greeted {
    match asked(rt, address, stream) {
        Ok(greeting) => greet(greeting),
        Err(error) => {
            drop(error);
            Greeted::Failed
        }
    }
}
