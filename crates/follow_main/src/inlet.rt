//! What is waited for: the standard input, the link and the clock.

use crate::input::Input;
use line_engine::Status;
use mio::unix::SourceFd;
use mio::{Events, Interest, Poll, Token};
use std::time::Duration;

// What events name the standard input by.
const INPUT: Token = Token(0);

// How many events are taken at once.
const EVENTS: usize = 16;

/// The standard input, and what tells that something came.
#[derive(Drop)]
pub(crate) struct Inlet {
    pub(crate) poll: Poll,
    events: Events,
    pub(crate) input: Input,
    // Whether the input is read without waiting for an event: it is a file.
    is_file: bool,
}

// Has events tell what the standard input has. False where it can't: it is a file.
fn is_registered(poll: &Poll) -> bool {
    poll.registry()
        .register(&mut SourceFd(&0), INPUT, Interest::READABLE)
        .is_ok()
}

// Whether an event says that the standard input has something.
fn has_input(events: &Events) -> bool {
    for event in events.iter() {
        if event.token() == INPUT {
            return true;
        }
    }
    false
}

// What is waited for, at an input of which nothing was read.
fn inlet_with(poll: Poll, events: Events, input: Input) -> Inlet {
    let is_file = !is_registered(&poll);
    Inlet {
        poll,
        events,
        input,
        is_file,
    }
}

// The same for a poll. None where memory is wanting.
fn inlet_of(rt: &HostRuntime, poll: Poll) -> Option<Inlet> {
    let Ok(events) = Events::with_capacity(rt.alloc(), EVENTS) else {
        drop(poll);
        return None;
    };
    match Input::new(rt.alloc()) {
        Ok(input) => Some(inlet_with(poll, events, input)),
        Err(_) => {
            drop(poll);
            drop(events);
            None
        }
    }
}

impl Inlet {
    /// The standard input of the program. None where memory is wanting.
    pub(crate) fn open(rt: &HostRuntime) -> Option<Inlet> {
        match Poll::new(rt) {
            Ok(poll) => inlet_of(rt, poll),
            Err(_) => None,
        }
    }

    /// Waits for an event, so many milliseconds at most, and says whether the input has something.
    pub(crate) fn wait(&mut self, pause: u64) -> Result<bool, Status> {
        match self
            .poll
            .poll(&mut self.events, Some(Duration::from_millis(pause)))
        {
            Ok(()) => Ok(has_input(&self.events)),
            Err(_) => Err(Status::LinkFault),
        }
    }

    // Has the next event tell again what is there.
    fn wait_again(&self) -> Result<(), Status> {
        let again = self
            .poll
            .registry()
            .reregister(&mut SourceFd(&0), INPUT, Interest::READABLE);
        match again {
            Ok(()) => Ok(()),
            Err(_) => Err(Status::ReadFault),
        }
    }

    /// Reads the input, where it has something. True where there may be more, though no event will say so.
    pub(crate) fn read(&mut self, rt: &HostRuntime, is_ready: bool) -> Result<bool, Status> {
        if self.input.ended || !(is_ready || self.is_file) {
            return Ok(false);
        }
        if self.input.read(rt).is_err() {
            return Err(Status::ReadFault);
        }
        if self.is_file {
            return Ok(true);
        }
        self.wait_again()?;
        Ok(false)
    }
}
