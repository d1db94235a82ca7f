//! A row of messages from their frames.
ghost use Rattle.std.specs.Prelude.{◌≡◌, ◌≢◌, ◌<◌, ◌++◌, length, true, List, Ok, Err, IfOk};
ghost use Rattle.edit_message.specs.declared.message.Message.{Message};
ghost use Rattle.edit_message.specs.Formed.{is_message};
ghost use Rattle.edit_frame.specs.declared.frame.Frame.TheVariants.{Item};
ghost use Rattle.edit_frame.specs.Spelling.{spelling};
ghost use Rattle.edit_frame.specs.Reading.{frame_at};
ghost use Rattle.editor_lib.specs.declared.journal.JournalFail.TheVariants.{Bad as bad};
ghost use Rattle.editor_lib.specs.Journal.{fail_by, SpellsRow};

use edit_frame::{Frame, FrameFail, first_frame};
use edit_message::Message;
use peer_core::RestoreFail;
use std::alloc::Global;

/// Why bytes give no journal.
#[derive(Clone, Copy, Debug, PartialEq, Eq)]
pub enum JournalFail {
    /// They aren't frames of messages one behind another to their end, or the messages are no journal within its limits.
    Bad,
    /// Memory was wanting.
    NoMemory,
}

impl From<RestoreFail> for JournalFail {
    ghost from_gives = { λ fail f. f ≡ fail_by fail };

    fn from(fail: RestoreFail) -> JournalFail {
        match fail {
            RestoreFail::NotJournal(_) => JournalFail::Bad,
            RestoreFail::NoMemory => JournalFail::NoMemory,
        }
    }
}

// The message whose frame bytes begin with, and what stands behind it.
fn next_message(alloc: Global, bytes: &[u8]) -> Result<(Message, &[u8]), JournalFail>
    ensures whole { IfOk result (λ next. bytes.now ≡ spelling (Item next.0) ++ next.1.now) }
    ensures formed { IfOk result (λ next. is_message next.0 ≡ true) }
    ensures shorter { IfOk result (λ next. length next.1.now < length bytes.now) }
    ensures bad { result ≡ Err bad → (message : Message) → frame_at bytes.now ≢ Ok (Item message) }
{
    let (frame, len) = match first_frame(alloc, bytes) {
        Ok(Some(first)) => first,
        Ok(None) | Err(FrameFail::Fault(_)) => return Err(JournalFail::Bad),
        Err(FrameFail::NoMemory) => return Err(JournalFail::NoMemory),
    };
    match frame {
        Frame::Item(message) => Ok((message, &bytes[len..])),
        Frame::Turn | Frame::End => Err(JournalFail::Bad),
    }
}

/// The messages whose frames, one behind another, are all of the bytes. Takes time in their number, and memory for the
/// messages.
pub fn messages_of(alloc: Global, bytes: &[u8]) -> Result<Vec<Message>, JournalFail>
    ensures row { IfOk result (λ messages. SpellsRow bytes.now messages.items) }
    ensures bad { result ≡ Err bad → (messages : List Message) → ¬ SpellsRow bytes.now messages }
{
    let mut messages = Vec::new(alloc);
    let mut rest = bytes;
    'messages: while !rest.is_empty() {
        let (message, behind) = next_message(alloc, rest)?;
        let Ok(()) = messages.push(message) else {
            return Err(JournalFail::NoMemory);
        };
        rest = behind;
    }
    Ok(messages)
}
