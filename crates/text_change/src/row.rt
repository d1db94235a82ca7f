//! The row of one element.
ghost use Rattle.std.specs.Prelude.{◌≡◌};
ghost use Rattle.text_change.specs.Rows.{piece_at, row_between, row_of};

use coop_request::Piece;
use elem_show::shown;
use element_name::Name;
use peer_core::Peer;
use peer_step::LocalEdit;

/// The piece that shows of an element, if it shows.
pub(crate) fn piece_at(peer: &Peer, element: Name) -> Option<Piece>
    ensures { result ≡ piece_at peer.now element }
{
    let cell = peer.cell(element)?;
    shown(&cell)
}

// The row that makes one shown piece of another, where so many elements show up to that place then.
fn row_between(up: u32, old: Option<Piece>, new: Option<Piece>) -> Option<LocalEdit>
    ensures { result ≡ row_between up old new }
{
    match (old, new) {
        (None, None) => None,
        (Some(_), None) => Some(LocalEdit::Delete { at: up }),
        (None, Some(letter)) => {
            let at = up.saturating_sub(1);
            Some(LocalEdit::Insert { at, letter })
        }
        (Some(before), Some(letter)) => {
            if before.bytes() == letter.bytes() {
                return None;
            }
            let at = up.saturating_sub(1);
            Some(LocalEdit::Update { at, letter })
        }
    }
}

/// The row of an element of which another piece showed, or none.
pub(crate) fn row_of(peer: &Peer, element: Name, old: Option<Piece>) -> Option<LocalEdit>
    ensures { result ≡ row_of peer.now element old }
{
    let up = peer.shown_up_to(element)?;
    row_between(up, old, piece_at(peer, element))
}
