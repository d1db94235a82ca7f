//! What goes to the host.
ghost use Rattle.std.specs.Prelude.{◌≡◌, ◌∷◌, ◌++◌, true, false, OnOk, IfOk};
ghost use Rattle.edit_frame.specs.Spelling.{spelling};
ghost use Rattle.edit_message.specs.declared.message.Message.{Message};
ghost use Rattle.follow_core.specs.declared.event.FollowEvent.{FollowEvent};
ghost use Rattle.follow_core.specs.Past.{follow_peer, back_of};
ghost use Rattle.follow_talk.specs.Sending.{own_frame, PassesFrames};

use crate::stop::Stop;
use crate::talk::Talk;
use edit_frame::{Frame, encode};
use edit_message::Message;
use element_name::NoMemory;
use host_core::Keeper;
use std::alloc::Global;

// Puts the frame of a message behind others.
fn put_item(alloc: Global, message: Message, frames: &mut Vec<u8>) -> Result<(), NoMemory>
    ensures { OnOk result (frames.new.items ≡ frames.old.items ++ spelling (Frame.Item message)) }
{
    let frame = Frame::Item(message);
    let put = encode(alloc, &frame, frames);
    drop(frame);
    put
}

impl<K: Keeper> Talk<K> {
    /// A link stands.
    pub fn link(&mut self)
        ensures { self.new.follower.outbox ≡ FollowEvent.Linked (back_of self.old.follower.outbox) ∷ self.old.follower.outbox }
    {
        self.follower.link();
    }

    // Passes the next message, and puts its frame if it is one of the device's own. False where there is none.
    fn put_frame(&mut self, frames: &mut Vec<u8>) -> Result<bool, Stop>
        ensures put { IfOk result (λ is_put. is_put ≡ true
            → (m : Message) × (self.new.follower.outbox ≡ FollowEvent.Passed m ∷ self.old.follower.outbox)
            × (frames.new.items ≡ frames.old.items ++ own_frame (follow_peer self.old.follower.outbox).site m)) }
        ensures left { IfOk result (λ is_put. is_put ≡ false
            → (self.new.follower.outbox ≡ self.old.follower.outbox) × (frames.new.items ≡ frames.old.items)) }
    {
        let Some(message) = self.follower.pass()? else {
            return Ok(false);
        };
        if self.follower.is_own(&message) {
            put_item(self.alloc, message, frames)?;
        } else {
            drop(message);
        }
        Ok(true)
    }

    /// The frames of the device's own requests that are saved and weren't sent on the link that stands, up to the first that
    /// goes past a size. No bytes where there are none.
    pub fn frames(&mut self, size: usize) -> Result<Vec<u8>, Stop>
        ensures { IfOk result (λ frames. PassesFrames self.old.follower.outbox self.new.follower.outbox frames.items) }
    {
        let mut frames = Vec::new(self.alloc);
        'passes: for _ in 0..u32::MAX {
            if frames.len() >= size || !self.put_frame(&mut frames)? {
                return Ok(frames);
            }
        }
        Ok(frames)
    }
}
