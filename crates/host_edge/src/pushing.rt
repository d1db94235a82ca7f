//! What links are sent: what they lack of what is saved, answers and news.
ghost use Rattle.std.specs.Prelude.{◌≡◌, ◌++◌, nat_lt, true, false, Ok, IfOk, IfSome};
ghost use Rattle.edit_message.specs.declared.message.Message.{Message};
ghost use Rattle.edit_frame.specs.declared.frame.Frame.TheVariants.{Item};
ghost use Rattle.edit_frame.specs.Spelling.{spelling};
ghost use Rattle.host_socket.specs.Sent.{socket_stays};
ghost use Rattle.host_edge.specs.Gifts.{behind_gift, GivesFrames, AreGifts, SendsGifts};
ghost use Rattle.host_edge.specs.declared.conn.Place.{Place};

use crate::conn::{Conn, Linked, Place};
use crate::desk::Desk;
use crate::linking::left_of;
use crate::telling::tell_news;
use edit_frame::{Frame, encode};
use host_core::LinkId;
use host_interface::HouseDocument;
use host_link::{Ending, FRAMES_AT_ONCE};
use host_socket::{After, Socket, flush, send_frames, send_text};
use std::alloc::Global;
use std::mem;

// How many messages are sent on one link before it is the others' turn.
const MOST_SENT: u32 = 4;

// Puts the frame of the next message for a link behind others, if it lacks one that is saved, and says whether it does.
fn put_next<'a, D: HouseDocument<'a>>(
    alloc: Global,
    document: &mut D,
    link: LinkId,
    frames: &mut Vec<u8>,
) -> Result<bool, Ending>
    ensures put { IfOk result (λ is_put. is_put ≡ true
        → (m : Message) × (D.past document.new ≡ behind_gift link m (D.past document.old)) × (frames.new.items ≡ frames.old.items ++ spelling (Item m))) }
    ensures left { IfOk result (λ is_put. is_put ≡ false
        → (document.new ≡ document.old) × (frames.new.items ≡ frames.old.items)) }
{
    let Some(message) = document.next_item(link)? else {
        return Ok(false);
    };
    let frame = Frame::Item(message);
    let encoded = encode(alloc, &frame, frames);
    drop(frame);
    match encoded {
        Ok(()) => Ok(true),
        Err(_) => Err(Ending::NoMemory),
    }
}

// Puts the frames of the next messages for a link behind others, up to the size at which a message ends, and says how many.
fn put_frames<'a, D: HouseDocument<'a>>(
    alloc: Global,
    document: &mut D,
    link: LinkId,
    frames: &mut Vec<u8>,
) -> Result<usize, Ending>
    ensures { IfOk result (λ count. GivesFrames link count (D.past document.old) (D.past document.new) frames.old.items frames.new.items) }
{
    for count in 0..FRAMES_AT_ONCE {
        if frames.len() >= FRAMES_AT_ONCE || !put_next(alloc, document, link, frames)? {
            return Ok(count);
        }
    }
    Ok(FRAMES_AT_ONCE)
}

// The frames of the next messages for a link, behind others, and how many.
fn next_frames<'a, D: HouseDocument<'a>>(
    desk: &mut Desk<'a, D>,
    number: usize,
    link: LinkId,
    frames: &mut Vec<u8>,
) -> Result<usize, Ending>
    ensures { IfOk result (λ count. AreGifts link count frames.old.items frames.new.items) }
{
    let alloc = desk.alloc;
    match desk.house.document(number) {
        Some(document) => put_frames(alloc, document, link, frames),
        None => Err(Ending::NoDocument),
    }
}

// Sends a link a message of frames. `None` where it lacks nothing.
fn push_frames<'a, D: HouseDocument<'a>>(
    desk: &mut Desk<'a, D>,
    linked: &mut Linked,
    number: usize,
) -> Option<After>
    ensures { IfSome result (λ after. socket_stays after ≡ true → SendsGifts linked.old.link linked.old.socket linked.new.socket) }
{
    let mut frames = Vec::new(desk.alloc);
    let count = match next_frames(desk, number, linked.link, &mut frames) {
        Ok(0) => return None,
        Ok(count) => count,
        Err(why) => return Some(After::Ends(why)),
    };
    desk.counts.items = desk.counts.items.saturating_add(count as u64);
    desk.counts.bytes = desk.counts.bytes.saturating_add(frames.len() as u64);
    Some(send_frames(desk.alloc, &mut linked.socket, &frames))
}

// Sends a link what it lacks of what is saved, as long as its socket takes it.
fn push_items<'a, D: HouseDocument<'a>>(desk: &mut Desk<'a, D>, linked: &mut Linked) -> After {
    let Place::Document(number) = linked.place else {
        return After::More;
    };
    for _ in 0..MOST_SENT {
        match push_frames(desk, linked, number) {
            None => return After::More,
            Some(After::More) => {}
            Some(after) => return after,
        }
    }
    After::More
}

// Sends texts, also where they wait for the stream.
fn send_texts(alloc: Global, socket: &mut Socket, texts: &[String]) -> After {
    for text in texts {
        match send_text(alloc, socket, text.as_str()) {
            After::More => {}
            After::Waits => {}
            after => return after,
        }
    }
    After::More
}

/// Sends a link the answers that are kept for it. What they tell of is saved.
pub(crate) fn send_answers<D>(desk: &Desk<'_, D>, linked: &mut Linked) -> After {
    let answers = mem::replace(&mut linked.answers, Vec::new(desk.alloc));
    let after = send_texts(desk.alloc, &mut linked.socket, &answers);
    drop(answers);
    after
}

// Whether a link is told the answers that are kept for it: at a document once its host says that all is saved, at the house
// behind the turn in which the last one came.
fn may_tell<'a, D: HouseDocument<'a>>(
    desk: &mut Desk<'a, D>,
    linked: &Linked,
) -> Result<bool, Ending>
    ensures house { linked.now.place ≡ Place.House → result ≡ Ok (nat_lt linked.now.answered desk.old.turn) }
{
    match linked.place {
        Place::House => Ok(linked.answered < desk.turn),
        Place::Document(number) => match desk.house.document(number) {
            Some(document) => document.tell(linked.link),
            None => Err(Ending::NoDocument),
        },
    }
}

// Sends the answers of orders that were saved.
fn push_answers<'a, D: HouseDocument<'a>>(desk: &mut Desk<'a, D>, linked: &mut Linked) -> After {
    if linked.answers.is_empty() {
        return After::More;
    }
    match may_tell(desk, linked) {
        Ok(true) => send_answers(desk, linked),
        Ok(false) => After::More,
        Err(why) => After::Ends(why),
    }
}

// Sends a link all that it is to be told, unless its socket takes nothing.
fn push_all<'a, D: HouseDocument<'a>>(
    desk: &mut Desk<'a, D>,
    linked: &mut Linked,
    slot: usize,
) -> After {
    if linked.blocked.is_some() {
        match flush(&mut linked.socket) {
            After::More => linked.blocked = None,
            after => return after,
        }
    }
    match push_answers(desk, linked) {
        After::More => {}
        after => return after,
    }
    match tell_news(desk, linked, slot) {
        After::More => {}
        after => return after,
    }
    push_items(desk, linked)
}

/// Sends a link all that it is to be told, and notes since when its socket takes nothing.
pub(crate) fn push<'a, D: HouseDocument<'a>>(
    desk: &mut Desk<'a, D>,
    linked: &mut Linked,
    slot: usize,
) -> After {
    let after = push_all(desk, linked, slot);
    if after == After::Waits && linked.blocked.is_none() {
        linked.blocked = Some(desk.now);
    }
    after
}

// Sends a link what it is to be told, and reads nothing.
fn push_linked<'a, D: HouseDocument<'a>>(
    desk: &mut Desk<'a, D>,
    slot: usize,
    mut linked: Linked,
    until: u64,
    unread: bool,
) -> Option<Conn> {
    let after = push(desk, &mut linked, slot);
    left_of(desk, slot, linked, after, until, unread)
}

// Sends a connection what it is to be told, if it is a link.
fn push_conn<'a, D: HouseDocument<'a>>(
    desk: &mut Desk<'a, D>,
    slot: usize,
    conn: Conn,
) -> Option<Conn> {
    match conn.into_link() {
        Ok((linked, until, unread)) => push_linked(desk, slot, linked, until, unread),
        Err(conn) => Some(conn),
    }
}

impl<'a, D> Desk<'a, D> {
    // Whether the links at a place are to be told something. From now on they count as told.
    fn take_must_push(&mut self, place: Place) -> bool {
        match self.room(place) {
            Some(room) => mem::replace(&mut room.must_push, false),
            None => false,
        }
    }

    // Lets go of the carets of a room, which were passed on.
    fn forget_carets(&mut self, place: Place) {
        let alloc = self.alloc;
        if let Some(room) = self.room(place) {
            drop(mem::replace(&mut room.carets, Vec::new(alloc)));
        }
    }
}

impl<'a, D: HouseDocument<'a>> Desk<'a, D> {
    // Sends the link of a slot what it is to be told.
    fn push_slot(&mut self, slot: usize) {
        if let Some(conn) = self.take_out(slot) {
            let left = push_conn(self, slot, conn);
            self.put_back(slot, left);
        }
    }

    // Sends the links of a room what they are to be told. Those that end leave the room, so the last one goes first.
    fn push_room(&mut self, place: Place) {
        if !self.take_must_push(place) {
            return;
        }
        for at in (0..self.seat_count(place)).rev() {
            if let Some(slot) = self.slot_at(place, at) {
                self.push_slot(slot);
            }
        }
        self.forget_carets(place);
    }

    // Sends all links what they are to be told.
    pub(crate) fn push_rooms(&mut self) {
        for number in 0..self.rooms.len() {
            self.push_room(Place::Document(number));
        }
        self.push_room(Place::House);
    }
}
