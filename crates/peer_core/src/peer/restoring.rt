//! A peer that is made of its journal again.
ghost use Rattle.std.specs.Prelude.{◌≡◌, ◌++◌, ◌∷◌, [], false, IfOk, IfErr, OnOk, IsTrue};
ghost use Rattle.edit_message.specs.Formed.{is_message};
ghost use Rattle.peer_tables.specs.Derived.{finds_no_room};
ghost use Rattle.peer_tables.specs.Journal.{FollowsJournal, IsWithin};
ghost use Rattle.peer_core.specs.Restore.{peer_of_journal, IsRestoreFailOf, is_faulty, may_be_next};

use super::Peer;
use crate::due::DueIn;
use crate::restore::RestoreFail;
use edit_message::Message;
use element_name::NoMemory;
use hold_back::{Due, HoldBack};
use peer_tables::{Journal, OneThread};
use std::alloc::Global;

impl Peer {
    /// The peer of a site whose journal these messages are, the site's own among them, and that holds nothing. So
    /// the messages of a closed peer's journal, in their order, make that peer again, but for what it held.
    ///
    /// Any journal does, also that of another peer; but a name that the site gave and that isn't in it may be given
    /// anew, so a site's peer is to be made of all messages that the site ever made known.
    ///
    /// Takes the time and memory that the peer took to integrate the messages in this order.
    ///
    /// Fails with the place of the first message with which they are no journal, or one above its limits, and where
    /// memory is wanting.
    pub fn restore(alloc: Global, site: u16, messages: &[Message]) -> Result<Peer, RestoreFail>
        ensures peer { IfOk result (λ peer. peer ≡ peer_of_journal site messages.now) }
        ensures journal { OnOk result (IsWithin messages.now) }
        ensures fail { IfErr result (IsRestoreFailOf messages.now) }
    {
        Ok(Peer {
            site,
            journal: journal_of(alloc, messages)?,
            hold: HoldBack::new(alloc),
        })
    }
}

// The journal that these messages are.
fn journal_of(alloc: Global, messages: &[Message]) -> Result<Journal, RestoreFail>
    ensures value { IfOk result (λ journal. journal ≡ messages.now) }
    ensures within { OnOk result (IsWithin messages.now) }
    ensures fail { IfErr result (IsRestoreFailOf messages.now) }
{
    let mut journal = Journal::new(alloc)?;
    take_all(&mut journal, messages)?;
    let _ = journal.len();
    Ok(journal)
}

// Puts messages last in an empty journal, up to the first that may not be the next.
fn take_all(journal: &mut Journal, messages: &[Message]) -> Result<(), RestoreFail>
    requires { journal.old ≡ [] }
    ensures taken { OnOk result (journal.new ≡ messages.now) }
    ensures fail { IfErr result (IsRestoreFailOf messages.now) }
{
    for place in 0..messages.len() {
        let _before = journal.len();
        let taken = take_next(journal, &messages[place])?;
        if !taken {
            return Err(RestoreFail::NotJournal(place));
        }
    }
    Ok(())
}

// Puts a message last if it may be the next, and says whether it may.
fn take_next(journal: &mut Journal, message: &Message) -> Result<bool, NoMemory>
    ensures taken { IfOk result (λ taken. IsTrue taken → journal.new ≡ journal.old ++ message.now ∷ []) }
    ensures refused { IfOk result (λ taken. taken ≡ false → ¬ IsWithin (journal.old ++ message.now ∷ [])) }
{
    if !may_be_next(journal, message) {
        return Ok(false);
    }
    push(journal, message)?;
    Ok(true)
}

// Whether a message may be the next.
fn may_be_next(journal: &Journal, message: &Message) -> bool
    ensures test { result ≡ may_be_next journal.now message.now }
    ensures formed { IsTrue (is_message message.now) }
{
    !journal.has(message.key()) && DueIn(journal).due(message) && !is_faulty(journal, message)
}

// Whether it is an entry with a fault.
fn is_faulty(journal: &Journal, message: &Message) -> bool
    ensures { result ≡ is_faulty journal.now message.now }
{
    match message {
        Message::Coop(_) => false,
        Message::Admin(entry) => journal.legal(entry.op()).is_some(),
    }
}

// Puts a message last that may be the next.
fn push(journal: &mut Journal, message: &Message) -> Result<(), NoMemory>
    requires follows { FollowsJournal journal.old message.now }
    requires room { finds_no_room journal.old message.now ≡ false }
    ensures { OnOk result (journal.new ≡ journal.old ++ message.now ∷ []) }
{
    match message {
        Message::Coop(request) => {
            journal.push_request(&request.lent(), None)?;
            Ok(())
        }
        Message::Admin(entry) => {
            journal.push_entry(entry.copied()?, &OneThread)?;
            Ok(())
        }
    }
}
