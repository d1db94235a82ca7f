//! The text that a journal shows.
ghost use Rattle.std.specs.Prelude.{◌≡◌, filter_map, IfOk};
ghost use Rattle.tomb_seq.specs.Slots.{names_in};
ghost use Rattle.request_state.specs.Table.{kept_piece};

use coop_request::Piece;
use elem_show::shown;
use element_name::{Name, NoMemory};
use peer_step::Text;
use request_state::StateTable;
use std::alloc::Global;
use tomb_seq::TombSeq;

// The piece that shows of an element.
fn piece_of(states: &StateTable, element: Name) -> Option<Piece>
    ensures { result ≡ kept_piece states.now element }
{
    let cell = states.cell(element)?;
    shown(&cell)
}

/// The pieces that show, in text order.
pub(crate) fn text_of(alloc: Global, seq: &TombSeq, states: &StateTable) -> Result<Text, NoMemory>
    ensures { IfOk result (λ text. text ≡ filter_map (kept_piece states.now) (names_in seq.now)) }
{
    let mut text = Text::new(alloc);
    let names = seq.names()?;
    for name in &names {
        if let Some(piece) = piece_of(states, *name) {
            text.push(piece)?;
        }
    }
    Ok(text)
}
