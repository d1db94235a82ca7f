//! The entrance: who connects is taken in.
ghost use Rattle.std.specs.Prelude.{◌≤◌, vec_len};

use crate::conn::{Asking, Conn, Stage};
use crate::desk::Desk;
use host_socket::Happening;
use mio::net::{TcpListener, TcpStream};
use mio::{Interest, Poll, Token};
use std::io::{self, ErrorKind};
use std::net::{IpAddr, Net, SocketAddr};

/// What events name the listener by.
pub(crate) const LISTENER: Token = Token(usize::MAX);

// How many connections are taken in at once.
const MOST_ACCEPTED: u32 = 256;

/// Where connections come from.
#[derive(Drop)]
pub(crate) struct Entrance {
    pub(crate) poll: Poll,
    listener: TcpListener,
    // Whether more may wait to be taken in.
    is_waiting: bool,
    // Until when nobody is taken in.
    paused_until: u64,
}

// A listener at this address, of whom events are told.
fn listener_at(rt: &impl Net, poll: &Poll, address: SocketAddr) -> io::Result<TcpListener> {
    let mut listener = TcpListener::bind(rt, address)?;
    match poll
        .registry()
        .register(&mut listener, LISTENER, Interest::READABLE)
    {
        Ok(()) => Ok(listener),
        Err(error) => {
            drop(listener);
            Err(error)
        }
    }
}

// Has events of a stream told by the number of its slot, and says whether they are.
fn is_registered(poll: &Poll, stream: &mut TcpStream, slot: usize) -> bool {
    let _ = stream.set_nodelay(true);
    let both = Interest::READABLE | Interest::WRITABLE;
    poll.registry().register(stream, Token(slot), both).is_ok()
}

// Why nobody was taken in.
#[derive(Clone, Copy)]
enum Missed {
    /// Nobody waits.
    Nobody,
    /// He who waited is gone.
    Gone,
    /// The system has no descriptor left.
    Failed,
}

impl Missed {
    // By an error of the listener.
    fn by(error: io::Error) -> Missed {
        let kind = error.kind();
        drop(error);
        match kind {
            ErrorKind::WouldBlock => Missed::Nobody,
            ErrorKind::ConnectionAborted => Missed::Gone,
            _ => Missed::Failed,
        }
    }
}

impl Entrance {
    /// An entrance at this address.
    pub(crate) fn open(rt: &impl Net, address: SocketAddr) -> io::Result<Entrance> {
        let poll = Poll::new(rt)?;
        match listener_at(rt, &poll, address) {
            Ok(listener) => Ok(Entrance {
                poll,
                listener,
                is_waiting: false,
                paused_until: 0,
            }),
            Err(error) => {
                drop(poll);
                Err(error)
            }
        }
    }

    /// An event said that somebody waits.
    pub(crate) fn somebody_waits(&mut self) {
        self.is_waiting = true;
    }

    /// Whether somebody may be taken in now.
    pub(crate) fn is_busy(&self, now: u64) -> bool {
        self.is_waiting && now >= self.paused_until
    }
}

impl<'a, D> Desk<'a, D> {
    // A slot for one more connection.
    fn new_slot(&mut self) -> io::Result<Option<usize>>
        ensures { vec_len self.old.conns ≤ self.old.limits.connections → vec_len self.new.conns ≤ self.old.limits.connections }
    {
        if let Some(slot) = self.free.pop() {
            return Ok(Some(slot));
        }
        let slot = self.conns.len();
        if slot >= self.limits.connections {
            return Ok(None);
        }
        self.conns.push(None)?;
        Ok(Some(slot))
    }

    // The slot of a stream of which events are told; none where it is one too many.
    fn slot_of(&mut self, poll: &Poll, stream: &mut TcpStream) -> io::Result<Option<usize>> {
        let Some(slot) = self.new_slot()? else {
            return Ok(None);
        };
        if is_registered(poll, stream, slot) {
            return Ok(Some(slot));
        }
        self.free.push(slot)?;
        Ok(None)
    }

    // Begins with a stream from an address.
    fn begin(&mut self, slot: usize, stream: TcpStream, peer: IpAddr) {
        let asking = Asking {
            stream,
            peer,
            head: Vec::new(self.alloc),
        };
        let until = self.now.saturating_add(self.limits.head);
        self.counts.connections = self.counts.connections.saturating_add(1);
        self.put_back(slot, Some(Conn::waiting(Stage::Asking(asking), until)));
    }

    // Takes in a stream from an address. One too many is dropped.
    fn take_in(&mut self, poll: &Poll, mut stream: TcpStream, peer: IpAddr) {
        match self.slot_of(poll, &mut stream) {
            Ok(Some(slot)) => self.begin(slot, stream, peer),
            _ => drop(stream),
        }
    }

    // Takes in one who waits, if there is one, and says whether another one may wait.
    fn accept_one(&mut self, entrance: &mut Entrance) -> bool {
        let missed = match entrance.listener.accept() {
            Ok((stream, address)) => {
                self.take_in(&entrance.poll, stream, address.ip());
                return true;
            }
            Err(error) => Missed::by(error),
        };
        match missed {
            Missed::Gone => true,
            Missed::Nobody => {
                entrance.is_waiting = false;
                false
            }
            Missed::Failed => {
                self.note(Happening::Paused);
                entrance.paused_until = self.now.saturating_add(self.limits.pause);
                false
            }
        }
    }

    /// Takes in those that wait, up to so many. Where the system has no descriptor left nobody is taken in for a while.
    pub(crate) fn accept_some(&mut self, entrance: &mut Entrance) {
        if !entrance.is_busy(self.now) {
            return;
        }
        for _ in 0..MOST_ACCEPTED {
            if !self.accept_one(entrance) {
                return;
            }
        }
    }
}
