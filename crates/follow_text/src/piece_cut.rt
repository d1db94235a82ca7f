//! A text that is cut into pieces.
ghost use Rattle.std.specs.Prelude.{◌≡◌, ◌<◌, ◌≤◌, ◌++◌, length, IfOk, OnOk};
ghost use Rattle.std.specs.List.{concat};

use crate::letters::is_lead;
use coop_request::Piece;
use element_name::NoMemory;
use std::alloc::{AllocError, AllocFailed, Global};

// How many bytes a piece has at most.
const MOST: usize = 255;

// Ends a line.
const LINE_END: u8 = b'\n';

/// Why a text isn't cut.
#[derive(Clone, Copy, Debug, PartialEq, Eq)]
pub enum CutFail {
    /// It isn't UTF-8.
    NotText,
    /// Memory was wanting.
    NoMemory,
}

impl<T: Drop> From<AllocFailed<T>> for CutFail {
    fn from(_: AllocFailed<T>) -> CutFail {
        CutFail::NoMemory
    }
}

impl From<AllocError> for CutFail {
    fn from(_: AllocError) -> CutFail {
        CutFail::NoMemory
    }
}

impl From<NoMemory> for CutFail {
    fn from(_: NoMemory) -> CutFail {
        CutFail::NoMemory
    }
}

// How many bytes the line that a text begins with has, without its end.
fn line_len(text: &[u8]) -> usize
    ensures { result ≤ length text.now }
{
    match text.iter().position(|it| *it == LINE_END) {
        Some(len) => len,
        None => text.len(),
    }
}

// The last place within a piece's greatest length at which a letter begins.
fn last_lead(text: &[u8]) -> usize
    requires { MOST < length text.now }
    ensures some { 0 < result }
    ensures within { result ≤ MOST }
{
    for len in (1..=MOST).rev() {
        if is_lead(text[len]) {
            return len;
        }
    }
    MOST
}

// How long the first piece of a text is: a line end is one of its own, and others have as many whole letters as may be.
fn piece_len(text: &[u8]) -> usize
    requires { 0 < length text.now }
    ensures some { 0 < result }
    ensures within { result ≤ length text.now }
{
    let line = line_len(text);
    if line == 0 {
        return 1;
    }
    if line <= MOST {
        return line;
    }
    last_lead(text)
}

// Puts the pieces that a text is written in behind others.
fn push_pieces(pieces: &mut Vec<Piece>, text: &[u8]) -> Result<(), CutFail>
    ensures { OnOk result (concat pieces.new.items ≡ concat pieces.old.items ++ text.now) }
{
    let mut rest = text;
    while !rest.is_empty() {
        let (front, behind) = rest.split_at(piece_len(rest));
        let Some(piece) = Piece::checked(front) else {
            return Err(CutFail::NotText);
        };
        pieces.push(piece)?;
        rest = behind;
    }
    Ok(())
}

/// The pieces that three texts are written in, one behind another.
pub(crate) fn pieces_of(
    alloc: Global,
    front: &[u8],
    text: &[u8],
    back: &[u8],
) -> Result<Vec<Piece>, CutFail>
    ensures { IfOk result (λ pieces. concat pieces.items ≡ front.now ++ (text.now ++ back.now)) }
{
    let mut pieces = Vec::new(alloc);
    push_pieces(&mut pieces, front)?;
    push_pieces(&mut pieces, text)?;
    push_pieces(&mut pieces, back)?;
    Ok(pieces)
}
