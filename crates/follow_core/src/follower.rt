//! A follower with its peer.
ghost use Rattle.std.specs.Prelude.{◌≡◌, ◌⊎◌, ◌↔◌, ◌∷◌, [], ◌≤◌, ℕ, List, Some, false, OnErr, IfOk, IfSome, IsNone, OnOk, Contains, length, nat_le, if◌then◌else◌, ◌+◌, IsTrue};
ghost use Rattle.std.specs.Coded.{Coded-set};
ghost use Rattle.edit_message.specs.declared.message.Message.{Message};
ghost use Rattle.peer_core.specs.Sound.{IsSound};
ghost use Rattle.peer_core.specs.Answers.{answer_of};
ghost use Rattle.text_change.specs.Told.{AreRowsOf};
ghost use Rattle.follow_core.specs.declared.event.FollowEvent.{FollowEvent};
ghost use Rattle.follow_core.specs.Past.{follow_peer, follow_saved, is_request_of, is_own_at, back_of, standing_link};
ghost use Rattle.follow_core.specs.Happens.{HasSavedAll, StandsAt, Owes, ComesBack, IsFollowPast};

use crate::outbox::Outbox;
use edit_message::{Key, Message};
use element_name::Name;
use host_core::{KeepFail, Keeper};
use peer_core::Peer;
use peer_step::Step;
use std::alloc::Global;
use text_change::{Ahead, Told};

/// A device's peer, with what of its journal is saved and came back, and how far that was passed on the link that stands.
#[derive(Drop)]
pub struct Follower<K: Keeper> {
    alloc: Global,
    keeper: K,
    outbox: Outbox,
    // The stamp of the newest of the device's own requests that came back since it began.
    newest: u64,
    // The keeper has the peer of what has happened: as pasts, so that the equation has one proof at most.
    ghost peer_is: { FollowEvent.Began (K.peer keeper) 0 ∷ [] ≡ FollowEvent.Began (follow_peer outbox) 0 ∷ [] } by { Coded-set outbox-code (FollowEvent.Began (K.peer keeper) 0 ∷ []) (FollowEvent.Began (follow_peer outbox) 0 ∷ []) },

    // It keeps what was saved.
    ghost kept: { ∥ K.keeps keeper (follow_saved outbox) ∥₁ },
}

// Whether a message is a request of a site.
fn is_request_of(site: u16, message: &Message) -> bool
    ensures { result ≡ is_request_of site message.now }
{
    match message {
        Message::Coop(request) => request.id().site() == site,
        Message::Admin(_) => false,
    }
}

impl<K: Keeper> Follower<K> {
    /// A follower that begins with the keeper's peer, all of which is kept. The device's own requests below a place of the
    /// journal are known to be at the host; a place past the end counts as none.
    pub fn new(alloc: Global, keeper: K, back: u32) -> Self
        requires { K.keeps keeper (K.peer keeper).journal }
        ensures { result.outbox ≡ FollowEvent.Began (K.peer keeper) (if nat_le back (length (K.peer keeper).journal) then back else 0) ∷ [] }
    {
        let back = if back <= keeper.peer().journal_len() {
            back
        } else {
            0
        };
        let outbox = Outbox::new(keeper.peer(), back);
        Follower {
            alloc,
            keeper,
            outbox,
            newest: 0,
        }
    }

    /// What has happened.
    pub fn outbox(&self) -> &Outbox
        ensures same { result.now ≡ self.now.outbox }
        ensures past { IsFollowPast self.now.outbox }
    {
        self.outbox.past();
        &self.outbox
    }

    /// The peer.
    pub fn peer(&self) -> &Peer
        ensures peer { result.now ≡ follow_peer self.now.outbox }
        ensures sound { IsSound (follow_peer self.now.outbox) }
    {
        let peer = self.keeper.peer();
        let _site = peer.site();
        peer
    }

    /// Makes a step, and tells what it changed in the shown text. Nothing of it is saved yet, and nothing that comes of it
    /// is to be told before a [`save`](Follower::save).
    ///
    /// It takes the time of the step, and for the rows that of [`Ahead`].
    pub fn make(&mut self, step: Step) -> Result<Told, KeepFail>
        ensures made { OnOk result (self.new.outbox ≡ FollowEvent.Made step ∷ self.old.outbox) }
        ensures answer { IfOk result (λ told. told.answer ≡ answer_of (follow_peer self.old.outbox) step) }
        ensures rows { IfOk result (λ told. AreRowsOf (follow_peer self.old.outbox) (follow_peer self.new.outbox) told.rows.items) }
        ensures unchanged { OnErr result (self.new.outbox ≡ self.old.outbox) }
    {
        let Ok(ahead) = Ahead::of(self.alloc, self.keeper.peer(), &step) else {
            return Err(KeepFail::NoMemory);
        };
        let past = self.outbox.foreseen(&step);
        let answer = self.keeper.make(step)?;
        self.outbox.made(past);
        let rows = ahead.rows(self.keeper.peer(), &answer);
        Ok(Told { answer, rows })
    }

    /// Saves all steps that were made.
    pub fn save(&mut self) -> Result<(), KeepFail>
        ensures saved { OnOk result (self.new.outbox ≡ FollowEvent.Saved ∷ self.old.outbox) }
        ensures kept { OnOk result (K.keeps self.new.keeper (follow_peer self.old.outbox).journal) }
        ensures unchanged { OnErr result (self.new.outbox ≡ self.old.outbox) }
    {
        self.keeper.save()?;
        self.outbox.saved_all(self.keeper.peer());
        Ok(())
    }

    /// The program is told the answers of all steps that were made, if all of them is saved; says whether it is. Takes
    /// constant time, and no memory.
    pub fn tell(&mut self) -> bool
        ensures told { IsTrue result → self.new.outbox ≡ FollowEvent.Told ∷ self.old.outbox }
        ensures kept { IsTrue result → ∥ K.keeps self.new.keeper (follow_peer self.old.outbox).journal ∥₁ }
        ensures not_yet { result ≡ false → ¬ HasSavedAll self.old.outbox }
        ensures not_yet_unchanged { result ≡ false → self.new.outbox ≡ self.old.outbox }
    {
        if !self.outbox.is_all_saved(self.keeper.peer()) {
            return false;
        }
        self.outbox.told();
        true
    }

    /// Saves all steps that were made, and then the program is told their answers.
    pub fn save_and_tell(&mut self) -> Result<(), KeepFail>
        ensures told { OnOk result (self.new.outbox ≡ FollowEvent.Told ∷ (FollowEvent.Saved ∷ self.old.outbox)) }
        ensures kept { OnOk result (K.keeps self.new.keeper (follow_peer self.old.outbox).journal) }
        ensures unchanged { OnErr result (self.new.outbox ≡ self.old.outbox) }
    {
        self.save()?;
        self.outbox.told();
        Ok(())
    }

    /// A link stands: the journal is passed from behind the newest of the device's own requests that came back.
    pub fn link(&mut self)
        ensures { self.new.outbox ≡ FollowEvent.Linked (back_of self.old.outbox) ∷ self.old.outbox }
    {
        self.outbox.linked();
    }

    /// Passes the next message of the journal that is saved and wasn't passed on the link; none where there is no such
    /// message, or no link. One of the device's own is to be sent.
    pub fn pass(&mut self) -> Result<Option<Message>, KeepFail>
        ensures passed { IfOk result (λ found. IfSome found (λ m. self.new.outbox ≡ FollowEvent.Passed m ∷ self.old.outbox)) }
        ensures kept { IfOk result (λ found. IfSome found (λ m. ∥ ((J : List Message) × K.keeps self.new.keeper J × Contains J m) ∥₁)) }
        ensures none { IfOk result (λ found. IsNone found → IfSome (standing_link self.old.outbox) (λ x. length (follow_saved self.old.outbox) ≤ x.mark)) }
        ensures none_changed { IfOk result (λ found. IsNone found → self.new ≡ self.old) }
        ensures unchanged { OnErr result (self.new ≡ self.old) }
    {
        let Some(known) = self.outbox.link() else {
            return Ok(None);
        };
        if known.mark >= self.outbox.saved() {
            return Ok(None);
        }
        let Some(item) = self.keeper.peer().journal(known.mark) else {
            unreachable!()
        };
        let Ok(message) = item.copied() else {
            return Err(KeepFail::NoMemory);
        };
        self.outbox.passed(known, &message);
        Ok(Some(message))
    }

    /// Whether a message is a request of the device's own.
    pub fn is_own(&self, message: &Message) -> bool
        ensures { result ≡ is_request_of (follow_peer self.now.outbox).site message.now }
    {
        is_request_of(self.peer().site(), message)
    }

    // Whether the message at a place of the journal is the request of a name.
    fn stands_at(&self, place: u32, id: Name) -> bool
        ensures { IsTrue result → StandsAt self.now.outbox place id }
    {
        match self.peer().journal(place) {
            Some(item) => item.key() == Key::Coop(id),
            None => false,
        }
    }

    // Where the request of a name stands that is saved, behind those that came back.
    fn place_of(&self, id: Name) -> Option<u32>
        ensures behind { IfSome result (λ place. back_of self.now.outbox ≤ place) }
        ensures saved { IfSome result (λ place. place + 1 ≤ length (follow_saved self.now.outbox)) }
        ensures stands { IfSome result (λ place. StandsAt self.now.outbox place id) }
    {
        for place in self.outbox.back()..self.outbox.saved() {
            if self.stands_at(place, id) {
                return Some(place);
            }
        }
        None
    }

    // Whether a name is of the device's own site, and newer than those that came back.
    fn is_new_own(&self, id: Name) -> bool
        ensures { IsTrue result → id.site ≡ (follow_peer self.now.outbox).site }
    {
        id.stamp() > self.newest && id.site() == self.peer().site()
    }

    // Notes that a request of the device's own came back, if it is saved, behind those that came back before.
    fn note_back(&mut self, id: Name)
        requires { id.site ≡ (follow_peer self.old.outbox).site }
        ensures { (self.new.outbox ≡ self.old.outbox)
            ⊎ ((place : ℕ) × (self.new.outbox ≡ FollowEvent.CameBack place ∷ self.old.outbox) × StandsAt self.old.outbox place id) }
    {
        let Some(place) = self.place_of(id) else {
            return;
        };
        self.outbox.came_back(place);
        self.newest = id.stamp();
    }

    /// The request of a name, one of the device's own, came back from the host, and those in front of it are there too.
    /// Nothing changes where it is another's, or isn't saved, or where a later one came back. Takes the time of the journal
    /// from the last one on that came back.
    pub fn came_back(&mut self, id: Name)
        ensures { (self.new.outbox ≡ self.old.outbox)
            ⊎ ((place : ℕ) × (self.new.outbox ≡ FollowEvent.CameBack place ∷ self.old.outbox) × StandsAt self.old.outbox place id) }
    {
        if self.is_new_own(id) {
            self.note_back(id);
        }
    }

    // Whether a request of the device's own is the message at a place of the journal.
    fn is_own_at(&self, place: u32) -> bool
        ensures { result ≡ is_own_at self.now.outbox place }
    {
        let site = self.peer().site();
        match self.peer().journal(place) {
            Some(item) => match item.key() {
                Key::Coop(id) => id.site() == site,
                Key::Admin(_) => false,
            },
            None => false,
        }
    }

    /// Whether a request of the device's own isn't known to be at the host. Takes the time of the journal from the last one
    /// on that came back.
    pub fn owes(&self) -> bool
        ensures { IsTrue result ↔ Owes self.now.outbox }
    {
        for place in self.outbox.back()..self.peer().journal_len() {
            if self.is_own_at(place) {
                return true;
            }
        }
        false
    }
}
