//! A door to the programs of this machine.
ghost use Rattle.std.specs.Prelude.{◌≡◌, None, IfOk};
ghost use Rattle.link_ws.specs.Counts.{new_link, new_door};

use crate::hasty::HastyStream;
use crate::origin::LocalPages;
use crate::ws_link::{WsLink, limits};
use edit_io::{Door, Failed};
use std::alloc::Global;
use std::io;
use std::marker::Model;
use std::net::{Ipv4Addr, Net, SocketAddrV4, TcpListener, TcpStream};
use std::random::RandomSource;
use std::time::{Clock, Duration};
use tungstenite::handshake::{client, server};
use tungstenite::{ClientHandshake, Error, MidHandshake, RandomKeys, Role, WebSocket};

/// A door to the programs of this machine: a WebSocket over TCP, on 127.0.0.1 alone.
///
/// Contracts see its counts.
#[derive(Drop)]
pub struct TcpDoor<R> {
    rt: R,
    alloc: Global,
    listener: Option<TcpListener>,
    faults: u64,
    given: u64,
    returned: u64,
    hurt: u64,
}

impl<R> Model for TcpDoor<R> {
    ghost use Rattle.std.specs.Prelude.{◌≤◌};
    ghost use Rattle.link_ws.specs.Counts.{DoorCounts};

    ghost Value = { DoorCounts };

    ghost view = { λ s. record { faults = s.faults; given = s.given; returned = s.returned; hurt = s.hurt } };

    ghost invariant = { λ s. s.hurt ≤ s.returned };
}

/// A link that a [`TcpDoor`] gives.
pub type TcpLink<R> = WsLink<HastyStream<R>, RandomKeys<R>>;

// The socket of such a link.
type TcpSocket<R> = WebSocket<HastyStream<R>, RandomKeys<R>>;

// How many programs in a row may connect and ask for no link before that counts as a failure.
const MAX_STRAYS: u32 = 64;

// How many seconds a program that connected has to ask for a link, and one that was connected to has to answer.
const PATIENCE: u64 = 10;

// How many random bytes one that asks for a link sends, for the other end to answer by.
const NONCE: usize = 16;

// A handshake of a link that is asked for.
type Asking<R> = MidHandshake<ClientHandshake<HastyStream<R>, RandomKeys<R>>>;

// What is read of a program that connected, or that was connected to, until it has asked or answered.
fn hasty_stream<R: Clock + Drop>(rt: R, stream: TcpStream) -> io::Result<HastyStream<R>> {
    let _ = stream.set_nodelay(true);
    HastyStream::new(rt, stream, Duration::from_secs(PATIENCE))
}

// The stream of a program that connected, if it asks for a link in time.
fn asked<R: Clock + Drop + Copy>(
    alloc: Global,
    hasty: HastyStream<R>,
) -> Result<HastyStream<R>, Error> {
    match server::start(alloc, hasty, LocalPages { alloc }, Some(limits())).handshake() {
        Ok(socket) => Ok(socket.into_inner()),
        Err(why) => {
            drop(why);
            Err(Error::HandshakeIncomplete)
        }
    }
}

// The link of a stream over which one was asked for. Only a client masks what it sends, so one type serves both ends.
fn serving<R: RandomSource + Clock + Drop + Copy>(
    rt: R,
    alloc: Global,
    mut stream: HastyStream<R>,
) -> Result<TcpLink<R>, Error>
    ensures { IfOk result (λ link. link ≡ new_link) }
{
    match stream.take_time() {
        Ok(()) => {
            let keys = RandomKeys::new(rt);
            let limits = Some(limits());
            let socket = WebSocket::from_raw_socket(alloc, stream, keys, Role::Server, limits);
            Ok(WsLink::new(alloc, socket))
        }
        Err(error) => {
            drop(stream);
            Err(Error::Io(error))
        }
    }
}

// The link of a program that connected, if it asks for one in time.
fn greeted<R: RandomSource + Clock + Drop + Copy>(
    rt: R,
    alloc: Global,
    stream: TcpStream,
) -> Result<TcpLink<R>, Error>
    ensures { IfOk result (λ link. link ≡ new_link) }
{
    let hasty = hasty_stream(rt, stream)?;
    let stream = asked(alloc, hasty)?;
    serving(rt, alloc, stream)
}

// The link of the next program that asks for one. A program that connects and doesn't ask in time is let go.
fn accepted<R: RandomSource + Clock + Drop + Copy>(
    rt: R,
    alloc: Global,
    listener: &TcpListener,
) -> Result<TcpLink<R>, Failed>
    ensures { IfOk result (λ link. link ≡ new_link) }
{
    for _ in 0..MAX_STRAYS {
        let Ok((stream, _)) = listener.accept() else {
            return Err(Failed);
        };
        if let Ok(link) = greeted(rt, alloc, stream) {
            return Ok(link);
        }
    }
    Err(Failed)
}

// Asks for a link.
fn ask<R: RandomSource + Clock + Drop + Copy>(
    rt: R,
    alloc: Global,
    stream: TcpStream,
) -> Result<Asking<R>, Error> {
    let mut nonce = [0; NONCE];
    rt.fill_bytes(&mut nonce)?;
    let hasty = hasty_stream(rt, stream)?;
    match client::request_of(alloc, "ws://127.0.0.1/") {
        Ok(request) => {
            let keys = RandomKeys::new(rt);
            client::start(alloc, nonce, keys, request, hasty, Some(limits()))
        }
        Err(error) => {
            drop(hasty);
            Err(error)
        }
    }
}

// The socket of a program that was asked for a link, if it answers in time.
fn answered<R: RandomSource + Clock + Drop + Copy>(
    asking: Asking<R>,
) -> Result<TcpSocket<R>, Error> {
    match asking.handshake() {
        Ok((socket, answer)) => {
            drop(answer);
            Ok(socket)
        }
        Err(why) => {
            drop(why);
            Err(Error::HandshakeIncomplete)
        }
    }
}

// The link of a program that this one connected to, if it answers in time.
fn connected<R: RandomSource + Clock + Drop + Copy>(
    rt: R,
    alloc: Global,
    stream: TcpStream,
) -> Result<TcpLink<R>, Error>
    ensures { IfOk result (λ link. link ≡ new_link) }
{
    let asking = ask(rt, alloc, stream)?;
    let mut socket = answered(asking)?;
    match socket.get_mut().take_time() {
        Ok(()) => Ok(WsLink::new(alloc, socket)),
        Err(error) => {
            drop(socket);
            Err(Error::Io(error))
        }
    }
}

impl<R: Net<Listener = TcpListener, Stream = TcpStream> + RandomSource + Clock + Copy> TcpDoor<R> {
    /// A door that listens nowhere yet. It takes no memory.
    pub fn new(rt: R, alloc: Global) -> Self
        ensures { result ≡ new_door }
    {
        TcpDoor {
            rt,
            alloc,
            listener: None,
            faults: 0,
            given: 0,
            returned: 0,
            hurt: 0,
        }
    }

    fn bind(&self, port: u16) -> Result<TcpListener, Failed> {
        match TcpListener::bind(&self.rt, SocketAddrV4::new(Ipv4Addr::LOCALHOST, port)) {
            Ok(listener) => Ok(listener),
            Err(_) => Err(Failed),
        }
    }

    fn next_link(&self) -> Result<TcpLink<R>, Failed>
        ensures { IfOk result (λ link. link ≡ new_link) }
    {
        match &self.listener {
            Some(listener) => accepted(self.rt, self.alloc, listener),
            None => Err(Failed),
        }
    }

    fn link_to(&self, port: u16) -> Result<TcpLink<R>, Failed>
        ensures { IfOk result (λ link. link ≡ new_link) }
    {
        let address = SocketAddrV4::new(Ipv4Addr::LOCALHOST, port);
        let Ok(stream) = TcpStream::connect(&self.rt, address) else {
            return Err(Failed);
        };
        match connected(self.rt, self.alloc, stream) {
            Ok(link) => Ok(link),
            Err(_) => Err(Failed),
        }
    }
}

impl<R: Net<Listener = TcpListener, Stream = TcpStream> + RandomSource + Clock + Copy + Send> Door
    for TcpDoor<R> {
    type Line = TcpLink<R>;

    ghost faults = { λ s. s.faults };

    ghost given = { λ s. s.given };

    ghost returned = { λ s. s.returned };

    ghost hurt = { λ s. s.hurt };

    ghost used = { λ _. None };

    /// Listens on a port of 127.0.0.1.
    fn listen(&mut self, port: u16) -> Result<(), Failed> {
        match self.bind(port) {
            Ok(listener) => {
                self.listener = Some(listener);
                Ok(())
            }
            Err(fail) => {
                self.faults += 1;
                Err(fail)
            }
        }
    }

    /// Gives a link to the next program that connects and asks for one.
    ///
    /// A program that connects and doesn't ask for a link within 10 seconds is let go, and so is a page of another
    /// machine, whose request has an `Origin` elsewhere; the next one is awaited. The 64th in a row that is let go is
    /// a failure, as it is not to listen.
    fn accept(&mut self) -> Result<TcpLink<R>, Failed> {
        match self.next_link() {
            Ok(link) => {
                self.given += 1;
                Ok(link)
            }
            Err(fail) => {
                self.faults += 1;
                Err(fail)
            }
        }
    }

    /// Gives a link to the program that listens on this port of 127.0.0.1. One that doesn't answer within 10 seconds
    /// is a failure.
    fn connect(&mut self, port: u16) -> Result<TcpLink<R>, Failed> {
        match self.link_to(port) {
            Ok(link) => {
                self.given += 1;
                Ok(link)
            }
            Err(fail) => {
                self.faults += 1;
                Err(fail)
            }
        }
    }

    /// Takes a link back, and hangs it up.
    fn back(&mut self, line: TcpLink<R>) {
        if line.faults() > 0 {
            self.hurt += 1;
        }
        self.returned += 1;
        line.hang_up();
    }
}
