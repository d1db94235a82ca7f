//! A room: those who are at a document, or at the house.
ghost use Rattle.std.specs.Prelude.{◌≡◌, [], ◌∷◌, ◌++◌, true, Err, IfOk, OnOk, OnErr};
ghost use Rattle.host_link.specs.declared.ending.Ending.{Ending};
ghost use Rattle.host_edge.specs.Rooms.{person_links, device_slot, lacks_seat};

use host_link::Ending;
use std::alloc::Global;

/// A link that was welcomed to a room.
#[derive(Clone, Copy)]
pub(crate) struct Seat {
    pub(crate) slot: usize,
    pub(crate) site: u16,
    pub(crate) person: u16,
}

/// Whose links are meant.
#[derive(Clone, Copy)]
pub(crate) enum Who {
    /// Those of the device of a site.
    Device(u16),
    /// Those of all devices of a person.
    Person(u16),
}

impl Who {
    /// Whether a link is one of them.
    pub(crate) fn is_at(self, seat: Seat) -> bool {
        match self {
            Who::Device(site) => seat.site == site,
            Who::Person(person) => seat.person == person,
        }
    }
}

/// A caret that is passed on to the others of a room.
#[derive(Drop)]
pub(crate) struct Caret {
    pub(crate) slot: usize,
    pub(crate) text: String,
}

/// Those who are at a document, or at the house.
#[derive(Drop)]
pub(crate) struct Room {
    pub(crate) seats: Vec<Seat>,
    // The number of what is told of who is here, and whether it changed since.
    pub(crate) here: u64,
    pub(crate) here_changed: bool,
    // Whether a link is to be given something.
    pub(crate) must_push: bool,
    // Whether the document has something that isn't saved.
    pub(crate) is_unsaved: bool,
    pub(crate) carets: Vec<Caret>,
    pub(crate) idle_since: u64,
}

impl Room {
    /// A room in which nobody is.
    pub(crate) fn empty(alloc: Global) -> Room {
        Room {
            seats: Vec::new(alloc),
            here: 1,
            here_changed: false,
            must_push: false,
            is_unsaved: false,
            carets: Vec::new(alloc),
            idle_since: 0,
        }
    }

    /// Takes the seat of a slot away.
    pub(crate) fn leave(&mut self, slot: usize, now: u64) {
        if let Some(at) = self.seats.iter().position(|it| it.slot == slot) {
            let _ = self.seats.swap_remove(at);
        }
        self.here_changed = true;
        self.idle_since = now;
    }

    // How many links a person has here.
    fn links_of(&self, person: u16) -> usize
        ensures { result ≡ person_links person self.now.seats.items }
    {
        self.seats.iter().filter(|it| it.person == person).count()
    }

    // The slot of the link that a device has here.
    fn slot_of(&self, site: u16) -> Option<usize>
        ensures { result ≡ device_slot site self.now.seats.items }
    {
        let seat = self.seats.iter().find(|it| it.site == site)?;
        Some(seat.slot)
    }

    /// Seats a link, unless its person has as many here as he may. A device's older link doesn't count: its slot is given, and
    /// it is to end.
    pub(crate) fn take_seat(&mut self, seat: Seat, most: usize) -> Result<Option<usize>, Ending>
        ensures older { IfOk result (λ older. older ≡ device_slot seat.site self.old.seats.items) }
        ensures seated { OnOk result (self.new.seats.items ≡ self.old.seats.items ++ seat ∷ []) }
        ensures full { lacks_seat most seat self.old.seats.items ≡ true → result ≡ Err Ending.TooManyLinks }
        ensures left { OnErr result (self.new.seats.items ≡ self.old.seats.items) }
    {
        let older = self.slot_of(seat.site);
        if older.is_none() && self.links_of(seat.person) >= most {
            return Err(Ending::TooManyLinks);
        }
        if self.seats.push(seat).is_err() {
            return Err(Ending::NoMemory);
        }
        self.here_changed = true;
        self.must_push = true;
        Ok(older)
    }

    /// Keeps the caret of a slot until it is passed on, in place of an older one. Where memory is wanting it is let go.
    pub(crate) fn put_caret(&mut self, slot: usize, text: String) {
        let caret = Caret { slot, text };
        match self.carets.iter().position(|it| it.slot == slot) {
            Some(at) => self.carets[at] = caret,
            None => {
                let _ = self.carets.push(caret);
            }
        }
    }

    /// Makes news of who came and went.
    pub(crate) fn renew(&mut self) {
        if self.here_changed {
            self.here = self.here.saturating_add(1);
            self.here_changed = false;
            self.must_push = true;
        }
    }

    /// Whether nobody was here for so long.
    pub(crate) fn is_idle(&self, now: u64, idle: u64) -> bool {
        self.seats.is_empty() && now > self.idle_since.saturating_add(idle)
    }
}
