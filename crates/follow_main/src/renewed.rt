//! What a follower tells at its end where its document was renewed: what it wrote that the host didn't take.
ghost use Rattle.std.specs.Prelude.{◌≡◌, Some, IfOk, IsTrue, ◌↔◌, option_and_then};
ghost use Rattle.elem_show.specs.Cell.{shown};
ghost use Rattle.peer_core.specs.Peer.{cell_at};
ghost use Rattle.follow_main.specs.Writing.{writes, own_writes};

use crate::edge::Edge;
use coop_request::{Edit, Piece};
use edit_message::Message;
use elem_show::shown;
use element_name::Name;
use follow_core::Follower;
use follow_talk::Stop;
use host_core::Keeper;
use line_write::put_shown;
use peer_core::Peer;
use std::alloc::Global;
use std::str;

/// The close of a document that was renewed.
pub(crate) const RENEWED: u16 = 4024;

// The element and the piece of what a request writes; none of a deletion.
fn written(message: &Message) -> Option<(Name, Piece)>
    ensures { result ≡ writes message.now }
{
    let Message::Coop(request) = message else {
        return None;
    };
    match request.edit() {
        Edit::Insert { letter, .. } => Some((request.id(), letter)),
        Edit::Update { target, letter } => Some((target, letter)),
        Edit::Delete { .. } => None,
    }
}

// Whether an element shows a piece at a peer.
fn is_shown(peer: &Peer, element: Name, piece: Piece) -> bool
    ensures { IsTrue result ↔ (option_and_then shown (cell_at peer.now element) ≡ Some piece) }
{
    match peer.cell(element) {
        Some(cell) => shown(&cell) == Some(piece),
        None => false,
    }
}

// What the message at a place of a follower's journal writes, if it is the device's own.
fn own_written<K: Keeper>(follower: &Follower<K>, place: u32) -> Result<Option<(Name, Piece)>, Stop>
    ensures { IfOk result (λ found. found ≡ own_writes follower.now.outbox place) }
{
    let Some(item) = follower.peer().journal(place) else {
        return Ok(None);
    };
    let message = item.copied()?;
    let found = if follower.is_own(&message) {
        written(&message)
    } else {
        None
    };
    drop(message);
    Ok(found)
}

// The line of a piece that the host didn't take.
fn line_of(alloc: Global, piece: Piece) -> Result<String, Stop> {
    let mut line = Vec::from_slice(alloc, b"left")?;
    put_shown(&mut line, piece.bytes())?;
    Ok(String::from_str(alloc, str::from_utf8(&line).unwrap_or("left"))?)
}

// The line of the piece that a device wrote by the message at a place of its journal, if it wrote one there and that shows.
fn left_line<K: Keeper>(
    alloc: Global,
    follower: &Follower<K>,
    place: u32,
) -> Result<Option<String>, Stop> {
    match own_written(follower, place)? {
        Some((element, piece)) if is_shown(follower.peer(), element, piece) => {
            Ok(Some(line_of(alloc, piece)?))
        }
        _ => Ok(None),
    }
}

impl<'a> Edge<'a> {
    // The line of the message at a place, if it has one.
    fn left_at(&self, place: u32) -> Result<Option<String>, Stop> {
        match &self.talk {
            Some(talk) => left_line(self.alloc, talk.follower(), place),
            None => Ok(None),
        }
    }

    // From where on the journal has what the host didn't take, and how many messages it has.
    fn owed(&self) -> (u32, u32) {
        match &self.talk {
            Some(talk) => (
                talk.follower().outbox().back(),
                talk.follower().peer().journal_len(),
            ),
            None => (0, 0),
        }
    }

    /// Says that the document was renewed, and behind that a line for each piece that the device wrote and the host didn't take.
    pub(crate) fn tell_renewed(&mut self) -> Result<(), Stop> {
        self.say("renewed")?;
        let (from, to) = self.owed();
        for place in from..to {
            if let Some(line) = self.left_at(place)? {
                self.say(line.as_str())?;
            }
        }
        Ok(())
    }
}
