//! The desk: a house, its connections, and who sits in which room.
ghost use Rattle.std.specs.Prelude.{◌≡◌};

use crate::conn::{Closing, Conn, Linked, Place, Stage};
use crate::room::{Room, Seat, Who};
use host_house::House;
use host_http::{Origins, Pages, Routes};
use host_interface::HouseDocument;
use host_link::Ending;
use host_socket::{Counts, Happening, Limits, Socket, WrongKeys, send_close};
use std::alloc::Global;
use std::mem;

/// A house, whose documents are of a type, with its connections.
#[derive(Drop)]
pub struct Desk<'a, D> {
    pub(crate) rt: &'a HostRuntime,
    pub(crate) alloc: Global,
    pub(crate) house: House<'a, D>,
    pub(crate) pages: Pages,
    pub(crate) routes: Routes,
    pub(crate) origins: Origins,
    pub(crate) limits: Limits,
    pub(crate) wrong_keys: WrongKeys,
    // Whether a proxy's word is taken on where a request comes from.
    pub(crate) trusts_proxy: bool,
    pub(crate) counts: Counts,
    pub(crate) happened: Vec<Happening>,
    pub(crate) now: u64,
    // The number of the turn, and of what is told of people.
    pub(crate) turn: u64,
    pub(crate) people: u64,
    pub(crate) people_changed: bool,
    pub(crate) lobby: Room,
    pub(crate) rooms: Vec<Room>,
    pub(crate) conns: Vec<Option<Conn>>,
    pub(crate) free: Vec<usize>,
    // Those that became free in this turn, of which events may still speak.
    pub(crate) freed: Vec<usize>,
    // Those with more to do, though no event will say so.
    pub(crate) again: Vec<usize>,
    pub(crate) swept: u64,
    pub(crate) told: u64,
    pub(crate) sealed: u64,
}

// Adds empty rooms to those that are there, until there are so many.
fn add_rooms(alloc: Global, rooms: &mut Vec<Room>, count: usize) -> Result<(), Ending> {
    for _ in rooms.len()..count {
        if rooms.push(Room::empty(alloc)).is_err() {
            return Err(Ending::NoMemory);
        }
    }
    Ok(())
}

impl<'a, D> Desk<'a, D> {
    /// A desk with no connection, to which connections come by themselves. It takes no memory.
    pub fn new(
        rt: &'a HostRuntime,
        house: House<'a, D>,
        pages: Pages,
        routes: Routes,
        origins: Origins,
        limits: Limits,
        wrong_keys: WrongKeys,
    ) -> Desk<'a, D> {
        let alloc = rt.alloc();
        Desk {
            rt,
            alloc,
            house,
            pages,
            routes,
            origins,
            limits,
            wrong_keys,
            trusts_proxy: false,
            counts: Counts::NONE,
            happened: Vec::new(alloc),
            now: 0,
            turn: 1,
            people: 1,
            people_changed: false,
            lobby: Room::empty(alloc),
            rooms: Vec::new(alloc),
            conns: Vec::new(alloc),
            free: Vec::new(alloc),
            freed: Vec::new(alloc),
            again: Vec::new(alloc),
            swept: 0,
            told: 0,
            sealed: 0,
        }
    }

    /// From now on connections come by a proxy, whose word is taken on where each comes from.
    pub fn trust_proxy(&mut self) {
        self.trusts_proxy = true;
    }

    // Has a room for each document.
    pub(crate) fn make_rooms(&mut self) -> Result<(), Ending>
        ensures { self.new ≡ record self.old { rooms = self.new.rooms } }
    {
        let count = self.house.documents().len();
        add_rooms(self.alloc, &mut self.rooms, count)
    }

    // The room of a place.
    pub(crate) fn room(&mut self, place: Place) -> Option<&mut Room> {
        match place {
            Place::House => Some(&mut self.lobby),
            Place::Document(number) => self.rooms.get_mut(number),
        }
    }

    // The seat at a place in a room.
    fn seat_at(&self, place: Place, at: usize) -> Option<Seat> {
        let room = match place {
            Place::House => &self.lobby,
            Place::Document(number) => self.rooms.get(number)?,
        };
        room.seats.get(at).copied()
    }

    // How many links are at a place.
    pub(crate) fn seat_count(&self, place: Place) -> usize {
        match place {
            Place::House => self.lobby.seats.len(),
            Place::Document(number) => match self.rooms.get(number) {
                Some(room) => room.seats.len(),
                None => 0,
            },
        }
    }

    // The slot of a link at a place.
    pub(crate) fn slot_at(&self, place: Place, at: usize) -> Option<usize> {
        let seat = self.seat_at(place, at)?;
        Some(seat.slot)
    }

    // Notes what happened, if there is memory for it.
    pub(crate) fn note(&mut self, what: Happening) {
        drop(self.happened.push(what));
    }

    // A socket that is told why it ends.
    pub(crate) fn ended(&mut self, mut socket: Socket, why: Ending) -> Option<Conn> {
        self.counts.ended(why);
        send_close(&mut socket, why);
        let until = self.now.saturating_add(self.limits.closing);
        let closing = Closing { socket, why: None };
        Some(Conn::ready(Stage::Closing(closing), until))
    }

    // A socket that is told later why it ends.
    pub(crate) fn ended_later(&mut self, socket: Socket, why: Ending) -> Option<Conn> {
        let until = self.now.saturating_add(self.limits.wrong_key);
        let closing = Closing {
            socket,
            why: Some(why),
        };
        Some(Conn::waiting(Stage::Closing(closing), until))
    }

    // Takes the connection out of a slot.
    pub(crate) fn take_out(&mut self, slot: usize) -> Option<Conn> {
        match self.conns.get_mut(slot) {
            Some(place) => place.take(),
            None => None,
        }
    }

    // Puts a connection into a slot.
    fn put_in(&mut self, slot: usize, conn: Conn) {
        match self.conns.get_mut(slot) {
            Some(place) => drop(mem::replace(place, Some(conn))),
            None => drop(conn),
        }
    }

    // Puts back what is left of a connection.
    pub(crate) fn put_back(&mut self, slot: usize, left: Option<Conn>) {
        let Some(conn) = left else {
            let _ = self.freed.push(slot);
            return;
        };
        if conn.unread {
            let _ = self.again.push(slot);
        }
        self.put_in(slot, conn);
    }

    // How many connections stand.
    pub(crate) fn open_count(&self) -> usize {
        self.conns
            .len()
            .saturating_sub(self.free.len())
            .saturating_sub(self.freed.len())
    }
}

impl<'a, D: HouseDocument<'a>> Desk<'a, D> {
    // Seats a link. Where its device has another one here, that one is told and ends.
    pub(crate) fn seat(&mut self, place: Place, seat: Seat) -> Result<(), Ending> {
        let most = self.limits.links_of_person;
        let Some(room) = self.room(place) else {
            return Err(Ending::NoDocument);
        };
        if let Some(older) = room.take_seat(seat, most)? {
            self.end_slot(older, Ending::Replaced);
        }
        Ok(())
    }

    // A link ends: it is closed at its host, and its seat is free.
    pub(crate) fn part(&mut self, slot: usize, linked: &Linked, why: Option<Ending>) {
        if let Place::Document(number) = linked.place {
            if let Some(document) = self.house.document(number) {
                document.close(linked.link);
            }
        }
        let now = self.now;
        if let Some(room) = self.room(linked.place) {
            room.leave(slot, now);
        }
        self.note(Happening::Left {
            site: linked.site,
            why,
        });
    }

    // A link that is told why it ends.
    pub(crate) fn ended_link(&mut self, slot: usize, linked: Linked, why: Ending) -> Option<Conn> {
        self.part(slot, &linked, Some(why));
        let Linked {
            socket,
            answers,
            ..
        } = linked;
        drop(answers);
        self.ended(socket, why)
    }

    // A link that is gone.
    pub(crate) fn gone_link(&mut self, slot: usize, linked: Linked) -> Option<Conn> {
        self.part(slot, &linked, None);
        drop(linked);
        None
    }

    // What a stage becomes whose link ends.
    fn ended_stage(&mut self, slot: usize, conn: Conn, why: Ending) -> Option<Conn> {
        match conn {
            Conn {
                stage: Stage::Linked(linked),
                ..
            } => self.ended_link(slot, linked, why),
            other => Some(other),
        }
    }

    // Ends the link of a slot.
    pub(crate) fn end_slot(&mut self, slot: usize, why: Ending) {
        if let Some(conn) = self.take_out(slot) {
            let left = self.ended_stage(slot, conn, why);
            self.put_back(slot, left);
        }
    }

    // Ends all links at a place, but for one that is being served. Those that end leave the room, so the last one goes first.
    pub(crate) fn end_all(&mut self, place: Place, why: Ending) {
        for at in (0..self.seat_count(place)).rev() {
            if let Some(slot) = self.slot_at(place, at) {
                self.end_slot(slot, why);
            }
        }
    }

    // Ends those links at a place that are of some device or person.
    fn end_some(&mut self, place: Place, who: Who, why: Ending) {
        for at in (0..self.seat_count(place)).rev() {
            if let Some(seat) = self.seat_at(place, at) {
                if who.is_at(seat) {
                    self.end_slot(seat.slot, why);
                }
            }
        }
    }

    // Ends the links of some device or person, everywhere.
    pub(crate) fn end_where(&mut self, who: Who, why: Ending) {
        for number in 0..self.rooms.len() {
            self.end_some(Place::Document(number), who, why);
        }
        self.end_some(Place::House, who, why);
    }

    // Ends all links to open documents, and closes these: a host knows a device by the role that it was made with.
    pub(crate) fn end_open(&mut self, why: Ending) {
        for number in 0..self.rooms.len() {
            self.end_all(Place::Document(number), why);
            self.house.shut(number);
        }
    }
}
