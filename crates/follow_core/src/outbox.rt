//! What of the journal is saved, what of it came back from the host, and how far it was passed on the link that stands.
ghost use Rattle.std.specs.Prelude.{◌≡◌, ◌↔◌, ◌∷◌, [], ◌<◌, ◌≤◌, Some, Contains, length, slice_get, IsTrue};
ghost use Rattle.follow_core.specs.declared.event.FollowEvent.{FollowEvent};
ghost use Rattle.follow_core.specs.Past.{follow_peer, follow_saved, back_of, standing_link};
ghost use Rattle.follow_core.specs.Happens.{HasSavedAll, ComesBack, IsFollowPast};

use crate::event::{FollowEvent, Stretch};
use edit_message::Message;
use ghost_list::GhostList;
use peer_core::Peer;
use peer_step::Step;
use std::marker::Model;

/// What of a follower's journal is saved and came back, and how far it was passed on the link that stands. Contracts see
/// what has happened, the newest first.
#[derive(Drop)]
pub struct Outbox {
    // How many messages of the journal are saved.
    saved: u32,
    // The place behind the last of the device's own requests that came back.
    back: u32,
    // The link that stands.
    link: Option<Stretch>,
    past: GhostList<FollowEvent>,
}

impl Model for Outbox {
    ghost use Rattle.std.specs.Prelude.{List};
    ghost use Rattle.follow_core.specs.declared.event.FollowEvent.{FollowEvent};
    ghost use Rattle.follow_core.specs.Happens.{IsOutboxOf};

    ghost Value = { List FollowEvent };

    ghost view = { λ r. r.past.items };

    ghost invariant = { λ r. IsOutboxOf r.past.items r.saved r.back r.link };
}

impl Outbox {
    /// That of a follower that begins with this peer, all of which is saved, and of whose journal the device's own requests
    /// below a place are at the host.
    pub fn new(peer: &Peer, back: u32) -> Outbox
        requires { back ≤ length peer.now.journal }
        ensures { result ≡ FollowEvent.Began peer.now back ∷ [] }
    {
        let none: GhostList<FollowEvent> = GhostList::new();
        Outbox {
            saved: peer.journal_len(),
            back,
            link: None,
            past: none.changed(&(peer, back)),
        }
    }

    /// Each event might happen after those before it.
    pub fn past(&self)
        ensures { IsFollowPast self.now }
    {
        let _saved = self.saved;
    }

    /// How many messages of the journal are saved.
    pub fn saved(&self) -> u32
        ensures count { result ≡ length (follow_saved self.now) }
        ensures past { IsFollowPast self.now }
    {
        self.saved
    }

    /// Below which place of the journal the device's own requests are known to be at the host.
    pub fn back(&self) -> u32
        ensures place { result ≡ back_of self.now }
        ensures saved { back_of self.now ≤ length (follow_saved self.now) }
    {
        self.back
    }

    /// How far the journal was passed on the link that stands.
    pub fn link(&self) -> Option<Stretch>
        ensures { result ≡ standing_link self.now }
    {
        self.link
    }

    /// What will have happened once this step is made.
    pub(crate) fn foreseen(&self, step: &Step) -> GhostList<FollowEvent>
        ensures { result.items ≡ FollowEvent.Made step.now ∷ self.now }
    {
        self.past.changed(step)
    }

    /// A step was made, as it was foreseen.
    pub(crate) fn made(&mut self, past: GhostList<FollowEvent>)
        requires { (step : Step) × (past.items ≡ FollowEvent.Made step ∷ self.old) }
        ensures { self.new ≡ past.items }
    {
        self.past = past;
    }

    /// All that the peer has is saved.
    pub(crate) fn saved_all(&mut self, peer: &Peer)
        requires { peer.now ≡ follow_peer self.old }
        ensures { self.new ≡ FollowEvent.Saved ∷ self.old }
    {
        self.saved = peer.journal_len();
        self.past = self.past.changed(&());
    }

    /// Whether all that the peer's journal has is saved.
    pub(crate) fn is_all_saved(&self, peer: &Peer) -> bool
        requires { peer.now ≡ follow_peer self.now }
        ensures { IsTrue result ↔ HasSavedAll self.now }
    {
        peer.journal_len() <= self.saved
    }

    /// The program is told the answers of all steps, since all that was made is saved.
    pub(crate) fn told(&mut self)
        requires { HasSavedAll self.old }
        ensures told { self.new ≡ FollowEvent.Told ∷ self.old }
        ensures whole { follow_saved self.old ≡ (follow_peer self.old).journal }
    {
        self.past = self.past.changed(&());
    }

    /// The request at a place of the journal came back.
    pub(crate) fn came_back(&mut self, place: u32)
        requires { ComesBack self.old place }
        ensures { self.new ≡ FollowEvent.CameBack place ∷ self.old }
    {
        prove!(place < self.saved);
        self.back = place + 1;
        self.past = self.past.changed(&place);
    }

    /// A link stands, on which the journal is passed from behind what came back.
    pub(crate) fn linked(&mut self)
        ensures { self.new ≡ FollowEvent.Linked (back_of self.old) ∷ self.old }
    {
        let from = self.back;
        self.link = Some(Stretch { from, mark: from });
        self.past = self.past.changed(&from);
    }

    /// The message at the mark, which is saved, was passed.
    pub(crate) fn passed(&mut self, known: Stretch, message: &Message)
        requires known { standing_link self.old ≡ Some known }
        requires next { slice_get (follow_peer self.old).journal known.mark ≡ Some message.now }
        requires saved { known.mark < length (follow_saved self.old) }
        ensures passed { self.new ≡ FollowEvent.Passed message.now ∷ self.old }
        ensures among { Contains (follow_saved self.old) message.now }
    {
        let Stretch { from, mark } = known;
        prove!(mark < self.saved);
        self.link = Some(Stretch {
            from,
            mark: mark + 1,
        });
        self.past = self.past.changed(message);
    }
}
