//! One message of a journal.
ghost use Rattle.std.specs.Prelude.{◌≡◌, ◌↔◌, IfOk, IsTrue};
ghost use Rattle.edit_message.specs.Message.{key_of, request_in};
ghost use Rattle.edit_message.specs.Same.{message_eq};
ghost use Rattle.peer_tables.specs.Items.{message_by};

use admin_log::AdminLog;
use coop_request::{LentRequest, PackedRequest};
use edit_message::{Key, Message};
use element_name::NoMemory;
use policy_book::Entry;
use request_state::StateTable;
use std::marker::Model;

/// A message of a peer's journal, seen as the message. It takes two words: its request is borrowed from the states, its
/// entry from the log.
#[derive(Drop)]
pub struct JournalItem<'a> {
    part: Part<'a>,
}

#[derive(Drop)]
enum Part<'a> {
    Request(&'a PackedRequest),
    Entry(&'a Entry),
}

impl<'a> Model for JournalItem<'a> {
    ghost use Rattle.edit_message.specs.declared.message.Message.{Message};

    ghost Value = { Message };

    ghost use Rattle.peer_tables.specs.Part.{message_of_part};

    ghost view = { λ i. message_of_part i.part };
}

impl<'a> JournalItem<'a> {
    /// Its key, in constant time. Takes no memory.
    pub fn key(&self) -> Key
        ensures { result ≡ key_of self.now }
    {
        match &self.part {
            Part::Request(request) => Key::Coop(request.lent().id()),
            Part::Entry(entry) => Key::Admin(entry.version()),
        }
    }

    /// Its request, whose piece stays where it lies; none where it is an entry. Takes constant time.
    pub fn lent_request(&self) -> Option<LentRequest<'_>>
        ensures { result ≡ request_in self.now }
    {
        match &self.part {
            Part::Request(request) => Some(request.lent()),
            Part::Entry(_) => None,
        }
    }

    /// Whether the message is this one, in time in the lists of an entry. Takes no memory.
    pub fn same(&self, other: &Message) -> bool
        ensures equality { IsTrue result ↔ (self.now ≡ other.now) }
        ensures test { result ≡ message_eq self.now other.now }
    {
        match (&self.part, other) {
            (Part::Request(request), _) => Message::Coop(request.request()).same(other),
            (Part::Entry(a), Message::Admin(b)) => a.same(b),
            (Part::Entry(_), Message::Coop(_)) => false,
        }
    }

    /// The message, in time in the lists of an entry. These alone take memory, and have the same allocators.
    pub fn copied(&self) -> Result<Message, NoMemory>
        ensures { IfOk result (λ c. c ≡ self.now) }
    {
        match &self.part {
            Part::Request(request) => Ok(Message::Coop(request.request())),
            Part::Entry(entry) => Ok(Message::Admin(entry.copied()?)),
        }
    }
}

// The item of a request.
fn of_request(request: &PackedRequest) -> JournalItem<'_>
    ensures { result ≡ Message.Coop request.now }
{
    JournalItem {
        part: Part::Request(request),
    }
}

// The item of an entry.
fn of_entry(entry: &Entry) -> JournalItem<'_>
    ensures { result ≡ Message.Admin entry.now }
{
    JournalItem {
        part: Part::Entry(entry),
    }
}

/// The message of a key: its request lies among the states, its entry in the log.
pub(crate) fn item_of<'a>(
    states: &'a StateTable,
    log: &'a AdminLog,
    key: Key,
) -> Option<JournalItem<'a>>
    ensures { result ≡ message_by states.now log.now key }
{
    match key {
        Key::Coop(id) => Some(of_request(states.packed_request(id)?)),
        Key::Admin(version) => Some(of_entry(log.entry(version)?)),
    }
}
