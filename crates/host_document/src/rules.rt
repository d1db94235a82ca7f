//! The rules of a document, as its host knows them.
ghost use Rattle.std.specs.Prelude.{◌≡◌, OnErr};

use edit_message::{Message, Missing};
use element_name::NoMemory;
use host_interface::{NotMade, RowFault};
use peer_core::{JournalItem, Peer};
use peer_step::Step;
use policy_book::{AdminOp, ApplyFault, Entry, Policy};
use std::alloc::Global;

/// The policy at the front of a document's log, or behind operations that are to be made, with the version of these.
#[derive(Drop)]
pub(crate) struct Rules {
    policy: Policy,
    version: u32,
}

// Whether it is an element that is missing. A peer lacks the version in front of an operation too, where an earlier one of
// its row makes that.
fn is_element(missing: &Missing) -> bool {
    matches!(missing, Missing::Element(_))
}

// Looks whether a peer has what an entry speaks of.
fn look_for(peer: &Peer, entry: Entry) -> Result<(), NotMade> {
    let message = Message::Admin(entry);
    let missing = peer.missing(&message);
    drop(message);
    match missing {
        Some(missing) if is_element(&missing) => Err(NotMade::Misses(missing)),
        _ => Ok(()),
    }
}

impl Rules {
    /// Those of a peer. It takes the time of its journal.
    pub(crate) fn of_peer(alloc: Global, peer: &Peer) -> Result<Rules, NoMemory> {
        let mut rules = Rules {
            policy: Policy::first(alloc)?,
            version: peer.front(),
        };
        match rules.follow_journal(peer) {
            Ok(()) => Ok(rules),
            Err(NoMemory) => {
                drop(rules);
                Err(NoMemory)
            }
        }
    }

    // Follows all messages of a peer's journal.
    fn follow_journal(&mut self, peer: &Peer) -> Result<(), NoMemory> {
        for place in 0..peer.journal_len() {
            if let Some(item) = peer.journal(place) {
                self.follow_item(&item)?;
            }
        }
        Ok(())
    }

    // Follows the next message of the journal.
    fn follow_item(&mut self, item: &JournalItem<'_>) -> Result<(), NoMemory> {
        let message = item.copied()?;
        let followed = self.follow(&message);
        drop(message);
        followed
    }

    // Follows a message, if it is an entry.
    fn follow(&mut self, message: &Message) -> Result<(), NoMemory> {
        match message {
            Message::Admin(entry) => self.follow_entry(entry),
            Message::Coop(_) => Ok(()),
        }
    }

    // Follows the next entry of the log, which is legal.
    fn follow_entry(&mut self, entry: &Entry) -> Result<(), NoMemory> {
        match self.policy.apply(entry.version(), entry.op()) {
            Err(ApplyFault::NoMemory) => Err(NoMemory),
            _ => Ok(()),
        }
    }

    /// The same rules, at a peer's front.
    pub(crate) fn at_front(&self, peer: &Peer) -> Result<Rules, NoMemory> {
        Ok(Rules {
            policy: self.policy.copied()?,
            version: peer.front(),
        })
    }

    /// Whether there is a user of this number.
    pub(crate) fn user(&self, user: u16) -> bool {
        self.policy.user(user)
    }

    /// Whether there is a group of this number.
    pub(crate) fn group(&self, group: u16) -> bool {
        self.policy.group(group)
    }

    /// Whether an operation is legal.
    pub(crate) fn allows(&self, op: &AdminOp) -> bool {
        self.policy.legal(op).is_none()
    }

    // Looks whether a peer has room for an operation of this version, and what that speaks of.
    fn look(&self, peer: &Peer, version: u32, op: &AdminOp) -> Result<(), NotMade> {
        match Entry::checked(version, op.copied()?) {
            Some(entry) => look_for(peer, entry),
            None => Err(NotMade::LogFull),
        }
    }

    // Follows an operation that makes this version, if it is legal.
    fn change(&mut self, version: u32, op: &AdminOp) -> Result<(), NotMade>
        ensures unchanged { OnErr result (self.new ≡ self.old) }
    {
        match self.policy.apply(version, op) {
            Ok(()) => {
                self.version = version;
                Ok(())
            }
            Err(ApplyFault::Illegal(fault)) => Err(NotMade::Illegal(fault)),
            Err(ApplyFault::NoMemory) => Err(NotMade::NoMemory),
        }
    }

    /// Follows an operation that is to be made at a peer, if it will be.
    pub(crate) fn foresee(&mut self, peer: &Peer, op: &AdminOp) -> Result<(), NotMade>
        ensures unchanged { OnErr result (self.new ≡ self.old) }
    {
        if let Some(fault) = self.policy.legal(op) {
            return Err(NotMade::Illegal(fault));
        }
        let version = self.version.saturating_add(1);
        self.look(peer, version, op)?;
        self.change(version, op)
    }

    // Follows the step of the line of this number in a row, which is to be made at a peer, if it will be.
    fn foresee_line(&mut self, peer: &Peer, line: usize, step: &Step) -> Result<(), RowFault> {
        let Step::Administer(op) = step else {
            return Ok(());
        };
        match self.foresee(peer, op) {
            Ok(()) => Ok(()),
            Err(why) => Err(RowFault::NotMade(line, why)),
        }
    }

    /// Follows the steps of a row, which are to be made at a peer, if each will be.
    pub(crate) fn foresee_row(&mut self, peer: &Peer, row: &[Step]) -> Result<(), RowFault> {
        let mut line = 0usize;
        for step in row {
            line = line.saturating_add(1);
            match self.foresee_line(peer, line, step) {
                Ok(()) => {}
                Err(fault) => return Err(fault),
            }
        }
        Ok(())
    }

    /// The rules behind an operation that is to be made at a peer, if it will be.
    pub(crate) fn behind(&self, peer: &Peer, op: &AdminOp) -> Result<Rules, NotMade> {
        let mut rules = self.at_front(peer)?;
        match rules.foresee(peer, op) {
            Ok(()) => Ok(rules),
            Err(why) => {
                drop(rules);
                Err(why)
            }
        }
    }
}
