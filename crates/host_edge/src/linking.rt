//! Links that were welcomed: what comes on them.
ghost use Rattle.std.specs.Prelude.{◌≡◌, ◌≢◌, Some, None, Ok, IfSome, IfOk, OnErr};
ghost use Rattle.edit_frame.specs.Reading.{frame_at, message_of_frame};
ghost use Rattle.host_core.specs.declared.event.Role.{Role};
ghost use Rattle.host_people.specs.Holders.{role_of};
ghost use Rattle.host_link.specs.declared.ending.Ending.{Ending};
ghost use Rattle.host_socket.specs.declared.socket.After.{After};
ghost use Rattle.host_edge.specs.Rooms.{refused_frames};
ghost use Rattle.host_edge.specs.Taken.{EndsBy};

use crate::conn::{Conn, Linked, Place, Stage};
use crate::desk::Desk;
use crate::pushing::{push, send_answers};
use crate::room::Who;
use edit_frame::{Frame, FrameFail, first_frame};
use edit_message::Message;
use host_core::{LinkId, Role};
use host_house::{Consequence, Done};
use host_interface::HouseDocument;
use host_link::{Ending, HouseOrder, Said, caret_text, read_house_order, read_said};
use host_socket::{After, Came, Happening, next_message, no_memory, send_text};
use line_write::answer_line;
use peer_step::Answer;
use std::alloc::{AllocError, Global};
use std::str;

// How many messages are read from one link before it is the others' turn.
const MOST_READ: u32 = 64;

// Whether a request came in, so that it is told as a message of the journal.
fn is_in(answer: &Answer) -> bool {
    match answer {
        Answer::Taken(_) => true,
        Answer::Held(_) => true,
        Answer::Repeat => true,
        _ => false,
    }
}

// Tells a link why its request isn't in.
fn tell_answer<D>(desk: &Desk<'_, D>, linked: &mut Linked, answer: &Answer) -> After {
    if is_in(answer) {
        return After::More;
    }
    let mut line = Vec::new(desk.alloc);
    if answer_line(desk.alloc, None, answer, &mut line).is_err() {
        return no_memory();
    }
    let words = str::from_utf8(&line).unwrap_or("").trim_end();
    match format!(in desk.alloc; "told {words}") {
        Ok(text) => send_text(desk.alloc, &mut linked.socket, text.as_str()),
        Err(_) => no_memory(),
    }
}

// Hands a message in to a document.
fn hand_in<'a, D: HouseDocument<'a>>(
    desk: &mut Desk<'a, D>,
    link: LinkId,
    number: usize,
    message: Message,
) -> Result<Answer, Ending> {
    match desk.house.document(number) {
        Some(document) => document.take(link, message),
        None => {
            drop(message);
            Err(Ending::NoDocument)
        }
    }
}

// Takes a message of the journal's kind.
fn take_item<'a, D: HouseDocument<'a>>(
    desk: &mut Desk<'a, D>,
    linked: &mut Linked,
    number: usize,
    message: Message,
) -> After {
    let taken = hand_in(desk, linked.link, number, message);
    desk.mark_unsaved(number);
    desk.counts.requests = desk.counts.requests.saturating_add(1);
    match taken {
        Ok(answer) => {
            let after = tell_answer(desk, linked, &answer);
            drop(answer);
            after
        }
        Err(why) => After::Ends(why),
    }
}

// The message of a frame; none of a turn and of an end.
fn message_of_frame(frame: Frame) -> Option<Message>
    ensures { result ≡ message_of_frame (Ok frame) }
{
    match frame {
        Frame::Item(message) => Some(message),
        Frame::Turn => None,
        Frame::End => None,
    }
}

// The message whose frame begins these bytes, with the length of that.
fn first_item(alloc: Global, bytes: &[u8]) -> Result<(Message, usize), After>
    ensures item { IfOk result (λ found. message_of_frame (frame_at bytes.now) ≡ Some found.0) }
    ensures none { OnErr result (EndsBy Ending.BadMessage result) }
{
    match first_frame(alloc, bytes) {
        Ok(Some((frame, len))) => match message_of_frame(frame) {
            Some(message) => Ok((message, len)),
            None => Err(After::Ends(Ending::BadMessage)),
        },
        Ok(None) => Err(After::Ends(Ending::BadMessage)),
        Err(FrameFail::Fault(_)) => Err(After::Ends(Ending::BadMessage)),
        Err(FrameFail::NoMemory) => Err(no_memory()),
    }
}

// Takes the first frame of these bytes, and gives its length.
fn take_frame<'a, D: HouseDocument<'a>>(
    desk: &mut Desk<'a, D>,
    linked: &mut Linked,
    number: usize,
    bytes: &[u8],
) -> Result<usize, After>
    ensures { message_of_frame (frame_at bytes.now) ≡ None → EndsBy Ending.BadMessage result × (desk.new ≡ desk.old) }
{
    let (message, len) = first_item(desk.alloc, bytes)?;
    match take_item(desk, linked, number, message) {
        After::More => Ok(len),
        After::Waits => Ok(len),
        other => Err(other),
    }
}

// Takes frames for a document, one after another. What came in front of one that isn't taken stays.
fn take_all<'a, D: HouseDocument<'a>>(
    desk: &mut Desk<'a, D>,
    linked: &mut Linked,
    number: usize,
    bytes: &[u8],
) -> After {
    let mut at = 0usize;
    for _ in 0..bytes.len() {
        let rest = bytes.get(at..).unwrap_or(&[]);
        if rest.is_empty() {
            return After::More;
        }
        match take_frame(desk, linked, number, rest) {
            Ok(len) => at = at.saturating_add(len),
            Err(after) => return after,
        }
    }
    After::More
}

// Takes frames. A link to the house sends none, and a reader's neither: nothing is changed then.
fn take_frames<'a, D: HouseDocument<'a>>(
    desk: &mut Desk<'a, D>,
    linked: &mut Linked,
    bytes: &[u8],
) -> After
    ensures { IfSome (refused_frames linked.old.place linked.old.writes) (λ why. (result ≡ After.Ends why) × (desk.new ≡ desk.old)) }
{
    let Place::Document(number) = linked.place else {
        return After::Ends(Ending::BadMessage);
    };
    if !linked.writes {
        return After::Ends(Ending::OnlyReads);
    }
    take_all(desk, linked, number, bytes)
}

// Does what comes of an order.
fn follow<'a, D: HouseDocument<'a>>(desk: &mut Desk<'a, D>, consequence: Consequence) {
    match consequence {
        Consequence::Nothing => {}
        Consequence::People => desk.people_changed = true,
        Consequence::Documents => desk.people_changed = true,
        Consequence::Closed(site) => {
            desk.people_changed = true;
            desk.end_where(Who::Device(site), Ending::Closed);
        }
        Consequence::Role(person) => {
            desk.people_changed = true;
            desk.end_where(Who::Person(person), Ending::NewRole);
            desk.end_open(Ending::NewRole);
        }
        Consequence::Moved(number) => {
            desk.people_changed = true;
            desk.end_all(Place::Document(number), Ending::NoDocument);
        }
        Consequence::Renewed(number) => {
            desk.people_changed = true;
            desk.end_all(Place::Document(number), Ending::Renewed);
        }
    }
}

// Makes orders, or refuses them, as the role of the link's person says.
fn make_order<'a, D: HouseDocument<'a>>(
    desk: &mut Desk<'a, D>,
    linked: &Linked,
    number: u32,
    lines: &str,
) -> Result<Done, AllocError>
    ensures { role_of linked.now.person desk.old.house.changes ≢ Some Role.Owner → desk.new ≡ desk.old }
{
    let place = match linked.place {
        Place::Document(document) => Some((document, linked.link)),
        Place::House => None,
    };
    match desk.house.role(linked.person) {
        Some(Role::Owner) => desk.house.tend(number, place, lines),
        _ => desk.house.refuse_order(number),
    }
}

// Keeps the answer of an order until all is saved.
fn keep_answer<D>(desk: &mut Desk<'_, D>, linked: &mut Linked, text: String) -> After {
    if linked.answers.push(text).is_err() {
        return no_memory();
    }
    linked.answered = desk.turn;
    if let Some(room) = desk.room(linked.place) {
        room.must_push = true;
    }
    match desk.house.people().device(linked.site) {
        Some(holder) if holder.is_open => After::More,
        _ => After::Ends(Ending::Closed),
    }
}

// Whether the document that a link leads to isn't open any more.
fn is_shut<'a, D: HouseDocument<'a>>(desk: &Desk<'a, D>, number: usize) -> bool {
    match desk.house.documents().get(number) {
        Some(document) => !document.is_open(),
        None => true,
    }
}

// Ends all links to a document that an order closed, the one that is served as the last. None of them may stay: the document's next
// host gives the numbers of links anew. Answers go first where all was saved, which isn't so where a row broke off.
fn leave_shut<'a, D: HouseDocument<'a>>(
    desk: &mut Desk<'a, D>,
    linked: &mut Linked,
    number: usize,
    consequence: Consequence,
) -> After {
    let (why, is_saved) = match consequence {
        Consequence::Role(_) => (Ending::NewRole, true),
        Consequence::Moved(_) => (Ending::NoDocument, true),
        Consequence::Renewed(_) => (Ending::Renewed, true),
        _ => (Ending::NoDocument, false),
    };
    desk.end_all(Place::Document(number), why);
    if is_saved && send_answers(desk, linked) == After::Gone {
        return After::Gone;
    }
    After::Ends(why)
}

// Whether an owner orders a renewal, which ends the links of a document.
fn orders_renewal<D>(desk: &Desk<'_, D>, linked: &Linked, lines: &str) -> bool {
    let is_owner = desk.house.role(linked.person) == Some(Role::Owner);
    match read_house_order(lines) {
        Some(HouseOrder::Renew { .. }) => is_owner,
        Some(HouseOrder::RenewHere) => is_owner,
        _ => false,
    }
}

// Takes orders. In front of a renewal all that came is saved and each link is given what it lacks, so that who is ended by it knows
// what of his the host has.
fn take_order<'a, D: HouseDocument<'a>>(
    desk: &mut Desk<'a, D>,
    linked: &mut Linked,
    slot: usize,
    number: u32,
    lines: &str,
) -> After {
    if orders_renewal(desk, linked, lines) {
        desk.commit();
        desk.push_rooms();
        match push(desk, linked, slot) {
            After::Gone => return After::Gone,
            After::Ends(why) => return After::Ends(why),
            _ => {}
        }
    }
    do_order(desk, linked, number, lines)
}

// Does what is ordered, and what comes of it.
fn do_order<'a, D: HouseDocument<'a>>(
    desk: &mut Desk<'a, D>,
    linked: &mut Linked,
    number: u32,
    lines: &str,
) -> After {
    let Ok(done) = make_order(desk, linked, number, lines) else {
        return no_memory();
    };
    if let Place::Document(document) = linked.place {
        desk.mark_unsaved(document);
    }
    desk.note(Happening::Ordered {
        site: linked.site,
        number,
    });
    let consequence = done.consequence;
    follow(desk, consequence);
    let after = keep_answer(desk, linked, done.text);
    match linked.place {
        Place::Document(number) if after == After::More && is_shut(desk, number) => {
            leave_shut(desk, linked, number, consequence)
        }
        _ => after,
    }
}

// Passes a caret on to the others of the room.
fn take_caret<D>(desk: &mut Desk<'_, D>, linked: &Linked, slot: usize, words: &str) -> After {
    let Ok(text) = caret_text(desk.alloc, linked.site, words) else {
        return no_memory();
    };
    if let Some(room) = desk.room(linked.place) {
        room.must_push = true;
        room.put_caret(slot, text);
    }
    After::More
}

// Does what a text says.
fn take_text<'a, D: HouseDocument<'a>>(
    desk: &mut Desk<'a, D>,
    linked: &mut Linked,
    slot: usize,
    text: &str,
) -> After {
    match read_said(text) {
        Said::Order { number, lines } => take_order(desk, linked, slot, number, lines),
        Said::Caret(words) => take_caret(desk, linked, slot, words),
        Said::Bad => After::Ends(Ending::BadMessage),
    }
}

// Reads the next message of a link, and does what it says.
fn read_message<'a, D: HouseDocument<'a>>(
    desk: &mut Desk<'a, D>,
    linked: &mut Linked,
    slot: usize,
) -> After {
    match next_message(desk.alloc, &mut linked.socket) {
        Came::Frames(bytes) => take_frames(desk, linked, &bytes),
        Came::Text(text) => take_text(desk, linked, slot, text.as_str()),
        Came::Nothing => After::More,
        Came::Other(after) => after,
    }
}

// Reads what came on a link, and says until when more has to come.
fn read_linked<'a, D: HouseDocument<'a>>(
    desk: &mut Desk<'a, D>,
    linked: &mut Linked,
    slot: usize,
    until: &mut u64,
) -> After {
    for _ in 0..MOST_READ {
        match read_message(desk, linked, slot) {
            After::More => *until = desk.now.saturating_add(desk.limits.silent),
            after => return after,
        }
    }
    After::More
}

// Whether a link has to be served again though no event will say so.
fn has_more<'a, D: HouseDocument<'a>>(desk: &mut Desk<'a, D>, linked: &Linked) -> bool {
    if linked.blocked.is_some() {
        return false;
    }
    match linked.place {
        Place::House => false,
        Place::Document(number) => match desk.house.document(number) {
            Some(document) => document.lacks(linked.link),
            None => false,
        },
    }
}

/// What is left of a link.
pub(crate) fn left_of<'a, D: HouseDocument<'a>>(
    desk: &mut Desk<'a, D>,
    slot: usize,
    linked: Linked,
    after: After,
    until: u64,
    unread: bool,
) -> Option<Conn> {
    match after {
        After::Gone => desk.gone_link(slot, linked),
        After::Ends(why) => desk.ended_link(slot, linked, why),
        _ => {
            let unread = unread || has_more(desk, &linked);
            Some(Conn {
                stage: Stage::Linked(linked),
                until,
                unread,
            })
        }
    }
}

/// Goes on with a link: sends what it is to be told, and reads what came.
pub(crate) fn serve_linked<'a, D: HouseDocument<'a>>(
    desk: &mut Desk<'a, D>,
    slot: usize,
    mut linked: Linked,
    mut until: u64,
) -> Option<Conn> {
    let pushed = push(desk, &mut linked, slot);
    let after = match pushed {
        After::Gone => pushed,
        After::Ends(_) => pushed,
        _ => read_linked(desk, &mut linked, slot, &mut until),
    };
    left_of(desk, slot, linked, after, until, after == After::More)
}
