//! Messages in boxes.
ghost use Rattle.std.specs.Prelude.{◌≡◌, IfOk};

use edit_message::{Message, PackedMessage};
use element_name::NoMemory;
use std::alloc::Global;
use std::marker::Model;

/// A message in a box, seen as the message: where few of many answers give one, the others need no room for it.
#[derive(Drop)]
pub struct BoxedMessage {
    inside: Box<PackedMessage>,
}

impl Model for BoxedMessage {
    ghost use Rattle.edit_message.specs.declared.message.Message.{Message};

    ghost Value = { Message };

    ghost view = { λ m. m.inside.value };
}

impl BoxedMessage {
    /// A copy of a message, in time in the lists of an entry.
    pub(crate) fn of(alloc: Global, message: &Message) -> Result<BoxedMessage, NoMemory>
        ensures { IfOk result (λ m. m ≡ message.now) }
    {
        let copy = message.copied()?;
        let packed = PackedMessage::of(alloc, copy)?;
        let inside = Box::new(alloc, packed)?;
        Ok(BoxedMessage { inside })
    }

    /// The message, in time in the lists of an entry. These alone take memory.
    pub fn copied(&self) -> Result<Message, NoMemory>
        ensures { IfOk result (λ c. c ≡ self.now) }
    {
        self.inside.copied()
    }
}
