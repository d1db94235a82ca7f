//! A text that is cut into pieces.
ghost use Rattle.std.specs.Prelude.{◌≡◌, ◌<◌, ◌≤◌, length, IfOk, IfSome};
ghost use Rattle.std.specs.List.{concat};
ghost use Rattle.peer_renewal.specs.Cutting.{is_blank, IsPieceLength};

use crate::bits::{bit_at, bits_from};
use coop_request::{MAX_PIECE, Piece};
use element_name::NoMemory;
use std::alloc::Global;

// Whether a word ends behind the byte.
fn is_blank(byte: u8) -> bool
    ensures { result ≡ is_blank byte }
{
    byte == b' ' || byte == b'\n'
}

// How long a first piece may be: up to the first break, if there is one in time.
fn longest(text: &[u8], breaks: &[bool]) -> usize
    requires { 0 < length text.now }
    ensures { IsPieceLength text.now breaks.now result }
{
    let most = text.len().min(MAX_PIECE);
    for size in 1..most {
        if bit_at(breaks, size) {
            return size;
        }
    }
    most
}

// The last end of a word among these bytes.
fn last_word_end(bytes: &[u8]) -> Option<usize>
    ensures some { IfSome result (λ size. 0 < size) }
    ensures within { IfSome result (λ size. size ≤ length bytes.now) }
{
    let last = bytes.iter().rposition(|byte| is_blank(*byte))?;
    Some(last + 1)
}

// The last place among these bytes, but for the first, at which a letter begins; the end where there is none.
fn last_letter(bytes: &[u8]) -> usize
    requires { 0 < length bytes.now }
    ensures some { 0 < result }
    ensures within { result ≤ length bytes.now }
{
    for place in (1..bytes.len()).rev() {
        if bytes[place] < 128 || bytes[place] >= 192 {
            return place;
        }
    }
    bytes.len()
}

// How long the first piece is. It ends at a break, behind a word, or, if a word is longer than a piece, behind a letter.
fn piece_len(text: &[u8], breaks: &[bool]) -> usize
    requires { 0 < length text.now }
    ensures { IsPieceLength text.now breaks.now result }
{
    let most = longest(text, breaks);
    if most == text.len() || bit_at(breaks, most) {
        return most;
    }
    match last_word_end(&text[..most]) {
        Some(size) => size,
        None => last_letter(&text[..most]),
    }
}

/// A text in pieces of at most [`MAX_PIECE`] bytes, none of which has a break within: breaks are noted for each byte,
/// and stand in front of it. A piece that ends at no break ends behind a word, but where a word is longer than a piece.
///
/// None where the text isn't UTF-8, or a break stands within a letter.
pub fn in_pieces(
    alloc: Global,
    text: &[u8],
    breaks: &[bool],
) -> Result<Option<Vec<Piece>>, NoMemory>
    ensures bytes { IfOk result (λ r. IfSome r (λ pieces. concat pieces.items ≡ text.now)) }
    ensures few { IfOk result (λ r. IfSome r (λ pieces. length pieces.items ≤ length text.now)) }
{
    let mut pieces = Vec::new(alloc);
    let mut rest = text;
    let mut left = breaks;
    while !rest.is_empty() {
        let size = piece_len(rest, left);
        let (front, behind) = rest.split_at(size);
        let Some(piece) = Piece::checked(front) else {
            return Ok(None);
        };
        pieces.push(piece)?;
        left = bits_from(left, size);
        rest = behind;
    }
    Ok(Some(pieces))
}
