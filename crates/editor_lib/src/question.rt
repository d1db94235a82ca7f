//! What a desk can be asked, and the bytes that answer it.
ghost use Rattle.std.specs.Prelude.{◌≡◌, option_map, IfOk};
ghost use Rattle.editor_lib.specs.Answers.{answer_to, would_answer};

use crate::shown::{piece_bytes, writer_at, writers};
use crate::told::{count_word, element_word, kept_state_line, piece_sizes, site_word, text_bytes};
use crate::would::{steps_said, undone_lines};
use element_name::NoMemory;
use line_read::read_name;
use line_spelling::LineFail;
use peer_core::Peer;
use std::alloc::Global;

/// What a desk can be asked.
#[derive(Clone, Copy)]
pub enum Question<'a> {
    /// The text that the peer shows, as its bytes. Takes time in its length.
    Text,
    /// The sizes of the pieces of that text, a byte each. Takes time in its length.
    Sizes,
    /// How many elements show. Takes constant time.
    Count,
    /// The piece that shows at a place. Takes the time of `Peer::shown_at`.
    PieceAt(u32),
    /// Who wrote what shows, two bytes for each element. Takes the time of `writer_at` for each.
    Writers,
    /// Who wrote what shows at a place. Takes the time of `Peer::shown_at`, and of a pass over the updates there.
    WriterAt(u32),
    /// The name of the element that shows at a place. Takes the time of `Peer::shown_at`.
    NameAt(u32),
    /// How many elements show up to the one that a word names. Takes the time of `Peer::shown_up_to`.
    ShownUpTo(&'a [u8]),
    /// The state of the request that a word names. Takes time in the word's length, and logarithmic in the requests.
    State(&'a [u8]),
    /// Which requests the steps would undo that lines say, with a line end between two. No step is made. Takes the time and
    /// memory of the whole journal.
    Would(&'a [u8]),
}

// Which requests the steps would undo that lines say; none where a line is no step line.
#[tactic(auto, unfolding(crate::specs::Answers::would_answer))]
fn would(alloc: Global, peer: &Peer, lines: &[u8]) -> Result<Option<Vec<u8>>, NoMemory>
    ensures { IfOk result (λ answer. option_map (λ bytes. bytes.items) answer ≡ would_answer peer.now lines.now) }
{
    let steps = match steps_said(alloc, lines) {
        Ok(steps) => steps,
        Err(LineFail::Bad) => return Ok(None),
        Err(LineFail::NoMemory) => return Err(NoMemory),
    };
    let names = undone_lines(alloc, peer, &steps)?;
    Ok(Some(names))
}

/// What answers a question of a peer; none where the bytes that it has aren't in the grammar.
#[tactic(auto, unfolding(crate::specs::Answers::text_answer, crate::specs::Answers::sizes_answer, crate::specs::Answers::shown_answer, crate::specs::Answers::piece_answer, crate::specs::Answers::writers_answer, crate::specs::Answers::writer_answer, crate::specs::Answers::name_answer, crate::specs::Answers::count_answer, crate::specs::Answers::state_answer))]
pub fn answer(
    alloc: Global,
    peer: &Peer,
    question: Question<'_>,
) -> Result<Option<Vec<u8>>, NoMemory>
    ensures { IfOk result (λ answer. option_map (λ bytes. bytes.items) answer ≡ answer_to question.entry peer.now) }
{
    match question {
        Question::Text => {
            let text = peer.text()?;
            Ok(Some(text_bytes(alloc, &text)?))
        }
        Question::Sizes => {
            let text = peer.text()?;
            Ok(Some(piece_sizes(alloc, &text)?))
        }
        Question::Count => Ok(Some(count_word(alloc, Some(peer.shown_len()))?)),
        Question::PieceAt(place) => Ok(Some(piece_bytes(alloc, peer, place)?)),
        Question::Writers => Ok(Some(writers(alloc, peer)?)),
        Question::WriterAt(place) => Ok(Some(site_word(alloc, writer_at(peer, place))?)),
        Question::NameAt(place) => Ok(Some(element_word(alloc, peer.shown_at(place))?)),
        Question::ShownUpTo(word) => match read_name(word) {
            Some(name) => Ok(Some(count_word(alloc, peer.shown_up_to(name))?)),
            None => Ok(None),
        },
        Question::State(word) => match read_name(word) {
            Some(name) => Ok(Some(kept_state_line(alloc, peer.state_of(name).copied())?)),
            None => Ok(None),
        },
        Question::Would(lines) => would(alloc, peer, lines),
    }
}
