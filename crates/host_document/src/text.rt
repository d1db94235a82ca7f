//! What is told of a peer: its text, and its journal as frames.

use audit_cert::certify;
use coop_request::Piece;
use edit_frame::{Frame, encode};
use elem_show::shown;
use element_name::NoMemory;
use peer_core::{JournalItem, Peer};
use std::alloc::Global;

// The piece that shows at a place.
fn piece_at(peer: &Peer, place: u32) -> Option<Piece> {
    let name = peer.shown_at(place)?;
    let cell = peer.cell(name)?;
    shown(&cell)
}

/// The text that a peer shows. It takes time in the text's length, and memory for it.
pub(crate) fn text_of(alloc: Global, peer: &Peer) -> Result<Vec<u8>, NoMemory> {
    let mut text = Vec::new(alloc);
    for place in 0..peer.shown_len() {
        if let Some(piece) = piece_at(peer, place) {
            text.extend_from_slice(piece.bytes())?;
        }
    }
    Ok(text)
}

// The first messages of a journal, so many.
fn items_of(alloc: Global, peer: &Peer, count: u32) -> Result<Vec<JournalItem<'_>>, NoMemory> {
    let mut items = Vec::new(alloc);
    for place in 0..count {
        if let Some(item) = peer.journal(place) {
            items.push(item)?;
        }
    }
    Ok(items)
}

// Appends a frame, which goes.
fn put_frame(alloc: Global, frame: Frame, out: &mut Vec<u8>) -> Result<(), NoMemory> {
    let put = encode(alloc, &frame, out);
    drop(frame);
    put
}

// Appends the frames of these messages.
fn put_items(alloc: Global, items: &[JournalItem<'_>], out: &mut Vec<u8>) -> Result<(), NoMemory> {
    for item in items {
        let message = item.copied()?;
        put_frame(alloc, Frame::Item(message), out)?;
    }
    Ok(())
}

// Appends the frames of these messages, and where it is wanted End and their certificate.
fn put_journal(
    alloc: Global,
    items: &[JournalItem<'_>],
    is_certified: bool,
    out: &mut Vec<u8>,
) -> Result<(), NoMemory> {
    put_items(alloc, items, out)?;
    if !is_certified {
        return Ok(());
    }
    put_frame(alloc, Frame::End, out)?;
    match certify(alloc, items, out) {
        Ok(()) => Ok(()),
        Err(_) => Err(NoMemory),
    }
}

/// The frames of the first messages of a journal, so many, and where it is wanted End and their certificate behind them.
/// It takes the time and memory of `certify`, or of the frames alone.
pub(crate) fn journal_of(
    alloc: Global,
    peer: &Peer,
    count: u32,
    is_certified: bool,
) -> Result<Vec<u8>, NoMemory> {
    let items = items_of(alloc, peer, count)?;
    let mut out = Vec::new(alloc);
    put_journal(alloc, &items, is_certified, &mut out)?;
    Ok(out)
}
