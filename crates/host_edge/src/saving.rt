//! Documents are saved, sealed, given up and closed.
ghost use Rattle.std.specs.Prelude.{◌≡◌};

use crate::conn::Place;
use crate::desk::Desk;
use host_interface::HouseDocument;
use host_link::Ending;
use host_socket::Happening;
use std::mem;

// How often what was saved is sealed, in milliseconds.
const SEALING: u64 = 60_000;

impl<'a, D> Desk<'a, D> {
    // Notes that a document has something that isn't saved.
    pub(crate) fn mark_unsaved(&mut self, number: usize)
        ensures { self.new ≡ record self.old { rooms = self.new.rooms } }
    {
        if let Some(room) = self.rooms.get_mut(number) {
            room.is_unsaved = true;
        }
    }

    // Whether a document couldn't be saved in this turn, and is tried again.
    pub(crate) fn is_any_unsaved(&self) -> bool {
        self.rooms.iter().any(|it| it.is_unsaved)
    }

    // Notes that somebody looked at a document.
    pub(crate) fn stay(&mut self, number: usize) {
        let _ = self.make_rooms();
        if let Some(room) = self.rooms.get_mut(number) {
            room.idle_since = self.now;
        }
    }

    // A document was saved.
    fn saved(&mut self, number: usize) {
        self.counts.saves = self.counts.saves.saturating_add(1);
        if let Some(room) = self.rooms.get_mut(number) {
            room.must_push = true;
        }
    }

    // Whether a document has something to be saved. From now on it counts as saved.
    fn take_unsaved(&mut self, number: usize) -> bool {
        match self.rooms.get_mut(number) {
            Some(room) => mem::replace(&mut room.is_unsaved, false),
            None => false,
        }
    }

    // Whether nobody was at a document for long.
    fn is_idle(&self, number: usize) -> bool {
        match self.rooms.get(number) {
            Some(room) => room.is_idle(self.now, self.limits.idle),
            None => false,
        }
    }
}

impl<'a, D: HouseDocument<'a>> Desk<'a, D> {
    // Saves a document. Where that fails for good, its links end and it is given up.
    fn commit_one(&mut self, number: usize) {
        let Some(document) = self.house.document(number) else {
            return;
        };
        match document.commit() {
            Ok(false) => {}
            Ok(true) => self.saved(number),
            Err(Ending::NoMemory) => self.mark_unsaved(number),
            Err(why) => {
                self.end_all(Place::Document(number), why);
                self.give_up(number, why);
            }
        }
    }

    // Gives a document up.
    fn give_up(&mut self, number: usize, why: Ending) {
        self.house.give_up(number, why);
        let alloc = self.alloc;
        let Some(document) = self.house.documents().get(number) else {
            return;
        };
        let name = String::from_str(alloc, document.name());
        let state = String::from_str(alloc, document.state_word());
        if let (Ok(document), Ok(state)) = (name, state) {
            self.note(Happening::Broken { document, state });
        }
    }

    // Saves what was changed: one save for each document.
    pub(crate) fn commit(&mut self) {
        for number in 0..self.rooms.len() {
            if self.take_unsaved(number) {
                self.commit_one(number);
            }
        }
        self.turn = self.turn.saturating_add(1);
    }

    // Seals what was saved since, once a minute.
    pub(crate) fn seal(&mut self) {
        if self.now < self.sealed.saturating_add(SEALING) {
            return;
        }
        self.sealed = self.now;
        self.house.seal();
    }

    // Closes the documents where nobody was for long.
    pub(crate) fn shut_idle(&mut self) {
        for number in 0..self.rooms.len() {
            if self.is_idle(number) {
                self.house.shut(number);
            }
        }
    }
}
