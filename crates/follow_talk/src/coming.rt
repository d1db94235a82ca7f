//! What comes from the host.
ghost use Rattle.std.specs.Prelude.{◌≡◌, OnOk};
ghost use Rattle.follow_core.specs.Past.{follow_peer};
ghost use Rattle.text_change.specs.Rows.{text_told};
ghost use Rattle.peer_core.specs.Peer.{text};
ghost use Rattle.follow_talk.specs.Mirrors.{ShowsText};

use crate::output_row::put_lost;
use crate::stop::Stop;
use crate::talk::Talk;
use edit_frame::{Frame, FrameFail, first_frame};
use edit_message::Message;
use element_name::Name;
use host_core::Keeper;
use peer_step::{Answer, Step};
use std::alloc::Global;
use text_change::Told;

// Whether a message of the host's is in, or was.
fn is_in(answer: &Answer) -> bool {
    match answer {
        Answer::Taken(_) => true,
        Answer::Advanced(_, _) => true,
        Answer::Repeat => true,
        Answer::Held(_) => true,
        _ => false,
    }
}

// The message that begins these bytes, with the length of its frame; none where no frame of a message does.
fn first_item(alloc: Global, bytes: &[u8]) -> Result<Option<(Message, usize)>, Stop> {
    let found = match first_frame(alloc, bytes) {
        Ok(found) => found,
        Err(FrameFail::NoMemory) => return Err(Stop::NoMemory),
        Err(_) => None,
    };
    let Some((frame, len)) = found else {
        return Ok(None);
    };
    match frame {
        Frame::Item(message) => Ok(Some((message, len))),
        _ => Ok(None),
    }
}

impl<K: Keeper> Talk<K> {
    // Settles the earliest message that is held and due. False where there is none.
    fn settle_one(&mut self) -> Result<bool, Stop> {
        let told = self.make(Step::Settle)?;
        let shown = self.show_told(&told);
        let is_quiet = told.answer.is_quiet();
        drop(told);
        shown?;
        Ok(!is_quiet)
    }

    // Settles what is held and due.
    fn settle(&mut self) -> Result<(), Stop> {
        for _ in 0..u32::MAX {
            if self.follower.peer().held_len() == 0 || !self.settle_one()? {
                return Ok(());
            }
        }
        Ok(())
    }

    // The name of a message that is a request of the device's own.
    fn own_name(&self, message: &Message) -> Option<Name> {
        match message {
            Message::Coop(request) if self.follower.is_own(message) => Some(request.id()),
            _ => None,
        }
    }

    // Shows a message that came, or tells that it can't be taken.
    fn show_taken(&mut self, told: &Told) -> Result<(), Stop>
        requires { ∥ text_told self.old.mirror.shown told.now.rows.items ≡ text (follow_peer self.old.follower.outbox) ∥₁ }
    {
        self.show_told(told)?;
        if is_in(&told.answer) {
            return Ok(());
        }
        put_lost(self.alloc, &mut self.mirror.said, &told.answer)?;
        Err(Stop::Lost)
    }

    // Makes the step of a message that came.
    fn take(&mut self, message: Message) -> Result<(), Stop> {
        let told = self.make(Step::Receive(message))?;
        let shown = self.show_taken(&told);
        drop(told);
        shown
    }

    // A request of the device's own came back.
    fn note_back(&mut self, id: Name) {
        self.follower.came_back(id);
    }

    /// Takes the next message of the host's journal. Takes the time of its step, and for each row that of the text.
    pub fn item(&mut self, message: Message) -> Result<(), Stop>
        ensures { OnOk result (∥ ShowsText self.new.mirror.shown self.new.follower.outbox ∥₁) }
    {
        let own = self.own_name(&message);
        self.take(message)?;
        if let Some(id) = own {
            self.note_back(id);
        }
        self.settle()?;
        self.known = self.known.saturating_add(1);
        self.check()
    }

    // Takes the first of the frames that came. None where no frame of a message is there.
    fn take_frame(&mut self, bytes: &[u8]) -> Result<Option<usize>, Stop> {
        let Some((message, len)) = first_item(self.alloc, bytes)? else {
            return Ok(None);
        };
        self.item(message)?;
        Ok(Some(len))
    }

    /// Takes frames that came, one after another. False where something else stands behind some of them.
    pub fn take_frames(&mut self, bytes: &[u8]) -> Result<bool, Stop> {
        let mut rest = bytes;
        for _ in 0..bytes.len() {
            if rest.is_empty() {
                return Ok(true);
            }
            let Some(len) = self.take_frame(rest)? else {
                return Ok(false);
            };
            rest = rest.get(len..).unwrap_or(&[]);
        }
        Ok(rest.is_empty())
    }
}
