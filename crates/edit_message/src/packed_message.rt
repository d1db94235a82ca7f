//! Packed messages.
ghost use Rattle.std.specs.Prelude.{◌≡◌, ◌↔◌, IfOk, IsTrue};
ghost use Rattle.edit_message.specs.Message.{key_of};
ghost use Rattle.edit_message.specs.Formed.{is_message};
ghost use Rattle.edit_message.specs.Same.{message_eq};

use crate::message::{Key, Message};
use coop_request::PackedRequest;
use element_name::NoMemory;
use policy_book::Entry;
use std::alloc::Global;
use std::marker::Model;

/// A message as a table keeps it, seen as the message: a request is packed, and an entry, of which there are
/// few, lies in a box.
#[derive(Drop)]
pub struct PackedMessage {
    packed: Packed,
}

#[derive(Drop)]
enum Packed {
    Coop(PackedRequest),
    Admin(Box<Entry>),
}

impl Model for PackedMessage {
    ghost use Rattle.edit_message.specs.declared.message.Message.{Message};

    ghost Value = { Message };

    ghost use Rattle.edit_message.specs.Packed.{message_in};

    ghost view = { λ m. message_in m.packed };
}

impl PackedMessage {
    /// A message, packed, in constant time. Takes memory for an entry, and for a piece of more than
    /// [`coop_request::SHORT_PIECE`] bytes.
    pub fn of(alloc: Global, message: Message) -> Result<PackedMessage, NoMemory>
        ensures { IfOk result (λ m. m ≡ message) }
    {
        match message {
            Message::Coop(request) => {
                let request = PackedRequest::of(alloc, request)?;
                Ok(PackedMessage {
                    packed: Packed::Coop(request),
                })
            }
            Message::Admin(entry) => {
                let entry = Box::new(alloc, entry)?;
                Ok(PackedMessage {
                    packed: Packed::Admin(entry),
                })
            }
        }
    }

    /// Its key, in constant time. Takes no memory.
    pub fn key(&self) -> Key
        ensures value { result ≡ key_of self.now }
        ensures message { IsTrue (is_message self.now) }
    {
        match &self.packed {
            Packed::Coop(request) => Key::of_request(&request.lent()),
            Packed::Admin(entry) => Key::Admin(entry.version()),
        }
    }

    /// Whether the message is this one, in time in the lists of an entry. Takes no memory.
    pub fn same(&self, other: &Message) -> bool
        ensures equality { IsTrue result ↔ (self.now ≡ other.now) }
        ensures test { result ≡ message_eq self.now other.now }
    {
        match (&self.packed, other) {
            (Packed::Coop(request), _) => Message::Coop(request.request()).same(other),
            (Packed::Admin(a), Message::Admin(b)) => a.same(b),
            (Packed::Admin(_), Message::Coop(_)) => false,
        }
    }

    /// The message, in time in the lists of an entry. These alone take memory, and have the same allocators.
    pub fn copied(&self) -> Result<Message, NoMemory>
        ensures { IfOk result (λ c. c ≡ self.now) }
    {
        match &self.packed {
            Packed::Coop(request) => Ok(Message::Coop(request.request())),
            Packed::Admin(entry) => Ok(Message::Admin(entry.copied()?)),
        }
    }
}
