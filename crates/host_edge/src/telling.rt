//! News that a link is told: people, who is here, carets.

use crate::conn::{Linked, Place};
use crate::desk::Desk;
use crate::room::Room;
use host_interface::HouseDocument;
use host_link::people_text;
use host_socket::{After, no_memory, send_text};
use std::alloc::{AllocError, Global};

// `here`, with the site of each link.
fn here_text(alloc: Global, room: &Room) -> Result<String, AllocError> {
    let mut text = String::from_str(alloc, "here")?;
    for seat in &room.seats {
        let site = seat.site;
        let word = format!(in alloc; " {site}")?;
        text.push_str(word.as_str())?;
    }
    Ok(text)
}

// Sends a text that was made.
fn send_made<D>(
    desk: &Desk<'_, D>,
    linked: &mut Linked,
    text: Result<String, AllocError>,
) -> After {
    match text {
        Ok(text) => send_text(desk.alloc, &mut linked.socket, text.as_str()),
        Err(_) => no_memory(),
    }
}

// Tells who there is and, at the house, which documents.
fn tell_people<'a, D: HouseDocument<'a>>(desk: &Desk<'a, D>, linked: &mut Linked) -> After {
    if linked.told_people == desk.people {
        return After::More;
    }
    linked.told_people = desk.people;
    let text = people_text(desk.alloc, desk.house.people());
    let after = send_made(desk, linked, text);
    if after != After::More || linked.place != Place::House {
        return after;
    }
    let text = desk.house.documents_text();
    send_made(desk, linked, text)
}

// Tells who is here.
fn tell_here<D>(desk: &mut Desk<'_, D>, linked: &mut Linked) -> After {
    let alloc = desk.alloc;
    let Some(room) = desk.room(linked.place) else {
        return After::More;
    };
    if linked.told_here == room.here {
        return After::More;
    }
    linked.told_here = room.here;
    let text = here_text(alloc, room);
    send_made(desk, linked, text)
}

// Tells the carets of the others.
fn tell_carets<D>(desk: &mut Desk<'_, D>, linked: &mut Linked, slot: usize) -> After {
    let alloc = desk.alloc;
    let Some(room) = desk.room(linked.place) else {
        return After::More;
    };
    for caret in &room.carets {
        if caret.slot == slot {
            continue;
        }
        match send_text(alloc, &mut linked.socket, caret.text.as_str()) {
            After::More => {}
            after => return after,
        }
    }
    After::More
}

/// Tells a link the news that it wasn't told.
pub(crate) fn tell_news<'a, D: HouseDocument<'a>>(
    desk: &mut Desk<'a, D>,
    linked: &mut Linked,
    slot: usize,
) -> After {
    match tell_people(desk, linked) {
        After::More => {}
        after => return after,
    }
    match tell_here(desk, linked) {
        After::More => {}
        after => return after,
    }
    tell_carets(desk, linked, slot)
}
