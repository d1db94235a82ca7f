//! The loop.

use crate::conn::Place;
use crate::desk::Desk;
use crate::entrance::{Entrance, LISTENER};
use crate::serving::{expire_conn, serve_conn};
use host_interface::HouseDocument;
use log::{Log, info};
use mio::Events;
use std::net::SocketAddr;
use std::sync::Wait;
use std::time::{Duration, Instant};
use std::{io, mem};

// How many events are taken at once.
const EVENTS: usize = 1_024;

// How long a turn waits for events, in milliseconds.
const WAIT: u64 = 250;

// How often each connection is looked at, in milliseconds.
const SWEEP: u64 = 1_000;

impl<'a, D> Desk<'a, D> {
    // Makes news of a room's changes.
    fn renew(&mut self, place: Place, people_changed: bool) {
        if let Some(room) = self.room(place) {
            room.renew();
            room.must_push = room.must_push || people_changed;
        }
    }

    // Makes news of what changed, once a while.
    fn tell(&mut self) {
        if self.now < self.told.saturating_add(self.limits.news) {
            return;
        }
        self.told = self.now;
        let people_changed = mem::replace(&mut self.people_changed, false);
        if people_changed {
            self.people = self.people.saturating_add(1);
        }
        for number in 0..self.rooms.len() {
            self.renew(Place::Document(number), people_changed);
        }
        self.renew(Place::House, people_changed);
    }

    // The slots that became free in this turn can be used from now on. Where memory is wanting one is never used again.
    fn free_slots(&mut self) {
        let alloc = self.alloc;
        for slot in mem::replace(&mut self.freed, Vec::new(alloc)) {
            let _ = self.free.push(slot);
        }
    }

    // Writes the log of a turn.
    fn log_turn(&mut self, log: &impl Log) {
        let alloc = self.alloc;
        let happened = mem::replace(&mut self.happened, Vec::new(alloc));
        for what in &happened {
            info!(log; "{what}");
        }
        drop(happened);
    }

    // How long a turn may wait for events, in milliseconds.
    fn pause(&self, entrance: &Entrance) -> u64 {
        if !self.again.is_empty() || self.is_any_unsaved() || entrance.is_busy(self.now) {
            0
        } else {
            WAIT
        }
    }

    // The milliseconds since a start.
    fn time_since(&self, start: Instant) -> io::Result<u64> {
        let passed = Instant::now(self.rt)?.saturating_duration_since(start);
        let seconds = passed.as_secs().saturating_mul(1_000);
        Ok(seconds.saturating_add(u64::from(passed.subsec_millis())))
    }
}

impl<'a, D: HouseDocument<'a>> Desk<'a, D> {
    // Goes on with the connection of a slot.
    fn serve(&mut self, slot: usize) {
        if let Some(conn) = self.take_out(slot) {
            let left = serve_conn(self, slot, conn);
            self.put_back(slot, left);
        }
    }

    // Goes on with those that have more to do, with no event.
    fn go_on(&mut self) {
        let alloc = self.alloc;
        for slot in mem::replace(&mut self.again, Vec::new(alloc)) {
            self.serve(slot);
        }
    }

    // Looks at the connection of a slot.
    fn expire(&mut self, slot: usize) {
        if let Some(conn) = self.take_out(slot) {
            let left = expire_conn(self, slot, conn);
            self.put_back(slot, left);
        }
    }

    // Looks at each connection once a second.
    fn sweep(&mut self) {
        if self.now < self.swept.saturating_add(SWEEP) {
            return;
        }
        self.swept = self.now;
        for slot in 0..self.conns.len() {
            self.expire(slot);
        }
        self.shut_idle();
    }

    // What is done in a turn behind the events.
    fn end_turn(&mut self) {
        self.sweep();
        self.go_on();
        self.tell();
        self.commit();
        self.seal();
        self.push_rooms();
        self.free_slots();
    }

    // Does what the events say.
    fn take_events(&mut self, entrance: &mut Entrance, events: &Events) {
        for event in events.iter() {
            let token = event.token();
            if token == LISTENER {
                entrance.somebody_waits();
            } else {
                self.serve(token.0);
            }
        }
    }

    // Waits for what comes at an entrance, and takes it.
    fn await_some(
        &mut self,
        entrance: &mut Entrance,
        events: &mut Events,
        start: Instant,
    ) -> io::Result<()> {
        let pause = Duration::from_millis(self.pause(entrance));
        entrance.poll.poll(events, Some(pause))?;
        self.now = self.time_since(start)?;
        self.take_events(entrance, events);
        self.accept_some(entrance);
        Ok(())
    }

    // Makes one turn after another.
    fn turn_forever(
        &mut self,
        wait: &impl Wait,
        log: &impl Log,
        entrance: &mut Entrance,
        events: &mut Events,
    ) -> io::Result<()> {
        let start = Instant::now(self.rt)?;
        for _ in wait.forever() {
            self.await_some(entrance, events, start)?;
            self.end_turn();
            self.log_turn(log);
        }
        Ok(())
    }

    // Serves at an entrance.
    fn run_at(
        &mut self,
        wait: &impl Wait,
        log: &impl Log,
        entrance: &mut Entrance,
    ) -> io::Result<()> {
        let mut events = Events::with_capacity(self.alloc, EVENTS)?;
        let outcome = self.turn_forever(wait, log, entrance, &mut events);
        drop(events);
        outcome
    }

    /// Serves on an address, until the system fails. A turn takes what events say, saves what they changed, one save for
    /// each document, and sends what links lack of what is saved.
    pub fn run(&mut self, wait: &impl Wait, log: &impl Log, address: SocketAddr) -> io::Result<()> {
        let mut entrance = Entrance::open(self.rt, address)?;
        let outcome = self.run_at(wait, log, &mut entrance);
        drop(entrance);
        outcome
    }
}
