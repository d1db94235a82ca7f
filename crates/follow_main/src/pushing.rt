//! What a link is sent.
ghost use Rattle.std.specs.Prelude.{◌≡◌, true, IfOk, IfSome};
ghost use Rattle.follow_talk.specs.Sending.{PassesFrames};
ghost use Rattle.follow_main.specs.Sending.{is_taken, SendsPassed};

use crate::edge::Edge;
use crate::link::Turned;
use crate::socket::{Sent, Socket, flush, send_frames};
use crate::stage::{Linked, Stage};
use follow_talk::Stop;
use line_engine::Status;
use std::mem;

// How many messages are sent in a turn.
const MOST_SENT: u32 = 64;

// About how many bytes a message has that is sent.
const MESSAGE: usize = 32_768;

impl<'a> Edge<'a> {
    // The frames of the next requests that are to be sent; none without a peer.
    fn next_frames(&mut self) -> Result<Vec<u8>, Stop>
        ensures { IfOk result (λ frames. IfSome self.old.talk (λ t. IfSome self.new.talk (λ u. PassesFrames t.follower.outbox u.follower.outbox frames.items))) }
    {
        match &mut self.talk {
            Some(talk) => talk.frames(MESSAGE),
            None => Ok(Vec::new(self.alloc)),
        }
    }

    // Sends the next requests on a socket. None where there are none.
    fn send_next(&mut self, socket: &mut Socket) -> Result<Option<Sent>, Turned>
        ensures { IfOk result (λ sent. IfSome sent (λ taken. is_taken taken ≡ true
            → IfSome self.old.talk (λ t. IfSome self.new.talk (λ u. SendsPassed t.follower.outbox u.follower.outbox socket.old socket.new)))) }
    {
        let frames = self.next_frames()?;
        if frames.is_empty() {
            return Ok(None);
        }
        Ok(Some(send_frames(self.alloc, socket, &frames)))
    }

    // Sends requests on a link, as long as its socket takes them.
    fn send_some(&mut self, linked: &mut Linked) -> Result<(), Turned> {
        for _ in 0..MOST_SENT {
            match self.send_next(&mut linked.socket)? {
                None => return Ok(()),
                Some(Sent::All) => {}
                Some(Sent::Waits) => {
                    linked.is_blocked = true;
                    return Ok(());
                }
                Some(Sent::Gone) => return Err(Turned::Gone),
            }
        }
        self.again = true;
        Ok(())
    }

    // Sends what a link lacks.
    fn push_linked(&mut self, linked: &mut Linked) -> Result<(), Turned> {
        if linked.is_blocked {
            match flush(&mut linked.socket) {
                Sent::All => linked.is_blocked = false,
                Sent::Waits => return Ok(()),
                Sent::Gone => return Err(Turned::Gone),
            }
        }
        if linked.writes {
            self.send_some(linked)?;
        }
        Ok(())
    }

    // Sends on a link what it lacks.
    fn push_to(&mut self, mut linked: Linked) -> Result<(), Status> {
        match self.push_linked(&mut linked) {
            Ok(()) => {
                self.put_stage(Stage::Linked(linked));
                Ok(())
            }
            Err(turned) => {
                drop(linked);
                self.turned(turned, true)
            }
        }
    }

    /// Sends what is saved and wasn't sent.
    pub(crate) fn push(&mut self) -> Result<(), Status> {
        match mem::replace(&mut self.stage, Stage::Apart) {
            Stage::Linked(linked) => self.push_to(linked),
            other => {
                self.put_stage(other);
                Ok(())
            }
        }
    }
}
