//! What shows at a place, and who wrote it.
ghost use Rattle.std.specs.Prelude.{◌≡◌, ◌++◌, [], slice_get, unwrap_or, option_map, IfOk, OnOk};
ghost use Rattle.edit_frame.specs.Spelling.{short_bytes};
ghost use Rattle.peer_core.specs.Peer.{text, shown_elements};
ghost use Rattle.text_change.specs.Rows.{piece_at};
ghost use Rattle.editor_lib.specs.Writers.{writer_by, writer_of, writers_bytes};

use coop_request::Piece;
use elem_show::{Cell, shown};
use element_name::{Name, NoMemory};
use peer_core::Peer;
use std::alloc::Global;

// The piece that shows of an element.
fn piece_of(peer: &Peer, element: Name) -> Option<Piece>
    ensures { result ≡ piece_at peer.now element }
{
    let cell = peer.cell(element)?;
    shown(&cell)
}

// The piece that shows at a place.
fn shown_piece(peer: &Peer, place: u32) -> Option<Piece>
    ensures { result ≡ slice_get (text peer.now) place }
{
    match peer.shown_at(place) {
        Some(element) => piece_of(peer, element),
        None => None,
    }
}

/// The bytes of the piece that shows at a place, and no bytes where none does. Takes the time of `Peer::shown_at`.
pub fn piece_bytes(alloc: Global, peer: &Peer, place: u32) -> Result<Vec<u8>, NoMemory>
    ensures { IfOk result (λ bytes. bytes.items ≡ unwrap_or (slice_get (text peer.now) place) []) }
{
    match shown_piece(peer, place) {
        Some(piece) => Ok(Vec::from_slice(alloc, piece.bytes())?),
        None => Ok(Vec::new(alloc)),
    }
}

// The site of who wrote what shows of an element with this cell. Takes time in its updates.
fn writer_by(element: Name, cell: &Cell<'_>) -> u16
    ensures { result ≡ writer_by element cell.now }
{
    match cell.letter(cell.letters().saturating_sub(1)) {
        Some((update, _)) => update.site(),
        None => element.site(),
    }
}

// The site of who wrote what shows of an element.
fn writer_of(peer: &Peer, element: Name) -> u16
    ensures { result ≡ writer_of peer.now element }
{
    match peer.cell(element) {
        Some(cell) => writer_by(element, &cell),
        None => element.site(),
    }
}

/// The site of who wrote what shows at a place, if anything does. Takes the time of `Peer::shown_at`, and of a pass over the
/// updates of the element there.
pub fn writer_at(peer: &Peer, place: u32) -> Option<u16>
    ensures { result ≡ option_map (writer_of peer.now) (slice_get (shown_elements peer.now) place) }
{
    let element = peer.shown_at(place)?;
    Some(writer_of(peer, element))
}

// Puts a site last, as two bytes.
#[tactic(auto, unfolding(edit_frame::specs::Spelling::short_bytes))]
fn put_site(sites: &mut Vec<u8>, site: u16) -> Result<(), NoMemory>
    ensures { OnOk result (sites.new.items ≡ sites.old.items ++ short_bytes site) }
{
    sites.extend_from_slice(&site.to_be_bytes())?;
    Ok(())
}

/// The sites of who wrote the pieces that show, in order, two bytes each. Takes the time of `writer_at` for each.
pub fn writers(alloc: Global, peer: &Peer) -> Result<Vec<u8>, NoMemory>
    ensures { IfOk result (λ sites. sites.items ≡ writers_bytes peer.now) }
{
    let mut sites = Vec::new(alloc);
    for place in 0..peer.shown_len() {
        let Some(site) = writer_at(peer, place) else {
            unreachable!()
        };
        put_site(&mut sites, site)?;
    }
    Ok(sites)
}
