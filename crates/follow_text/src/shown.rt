//! The text that shows, with the sizes of its pieces.
ghost use Rattle.std.specs.Prelude.{◌≡◌, ◌+◌, ◌-◌, ◌^◌, ◌<◌, ◌≤◌, length, take, sum, slice_index, slice_set, IfOk, OnOk, OnErr};
ghost use Rattle.std.specs.List.{concat};
ghost use Rattle.peer_step.specs.Text.{cut};
ghost use Rattle.peer_core.specs.Laws.{text_edited};
ghost use Rattle.follow_text.specs.Rows.{replaced, Makes};
ghost use Rattle.follow_text.specs.Shown.{with_pieces, BeginsAt, LiesAhead, StandsIn};

use crate::piece_cut::{CutFail, pieces_of};
use crate::span::Span;
use crate::text_row::{TextRow, replaced};
use coop_request::Piece;
use element_name::NoMemory;
use peer_step::{LocalEdit, Text};
use std::alloc::Global;
use std::marker::Model;

/// A text that shows, seen as the list of its pieces.
///
/// The pieces' bytes lie joined, beside their sizes: a byte for each piece.
#[derive(Drop)]
pub struct Shown {
    alloc: Global,
    bytes: Vec<u8>,
    sizes: Vec<u8>,
}

impl Model for Shown {
    ghost use Rattle.std.specs.Prelude.{◌≡◌, ℕ, List, length, sum};
    ghost use Rattle.peer_step.specs.Text.{cut};

    ghost Value = { List (List ℕ) };

    ghost view = { λ s. cut s.sizes.items s.bytes.items };

    ghost invariant = { λ s. sum s.sizes.items ≡ length s.bytes.items };
}

/// Pieces that are replaced: so many from a place on go, and these come there.
#[derive(Drop)]
pub struct Replacement {
    pub at: usize,
    pub out: usize,
    pub put: Vec<Piece>,
}

/// A text that was changed, and the row of that.
#[derive(Drop)]
pub struct Changed {
    pub shown: Shown,
    pub row: TextRow,
}

// A place between pieces: so many are in front of it, with so many bytes.
#[derive(Clone, Copy)]
pub(crate) struct Edge {
    number: usize,
    start: usize,
}

// How many bytes pieces of these sizes have.
fn total(sizes: &[u8]) -> usize
    requires { sum sizes.now < 2 ^ 63 }
    ensures { result ≡ sum sizes.now }
{
    let mut total = 0usize;
    for size in sizes {
        total += usize::from(*size);
    }
    total
}

// How many bytes the first pieces have, of these sizes.
fn start_of(sizes: &[u8], number: usize) -> usize
    requires { sum sizes.now < 2 ^ 63 }
    ensures { result ≡ sum (take number sizes.now) }
{
    let (front, _) = sizes.split_at(number.min(sizes.len()));
    total(front)
}

// The size of the piece of a number; 0 where there is none.
fn size_at(sizes: &[u8], number: usize) -> usize
    ensures { result ≡ slice_index sizes.now number }
{
    match sizes.get(number) {
        Some(size) => usize::from(*size),
        None => 0,
    }
}

// The edge in front of all pieces.
const FRONT: Edge = Edge {
    number: 0,
    start: 0,
};

// The last edge up to a place, from an edge on.
fn edge_before(sizes: &[u8], from: Edge, place: usize) -> Edge
    requires { LiesAhead sizes.now from place }
    ensures begins { BeginsAt sizes.now result }
    ensures later { from.number ≤ result.number }
    ensures stands { StandsIn sizes.now place result }
{
    let Edge {
        mut number,
        mut start,
    } = from;
    while number < sizes.len() {
        let end = start + usize::from(sizes[number]);
        if place < end {
            return Edge { number, start };
        }
        start = end;
        number += 1;
    }
    Edge { number, start }
}

// The first edge at a place or behind it, from an edge on.
fn edge_behind(sizes: &[u8], from: Edge, place: usize) -> Edge
    requires { LiesAhead sizes.now from place }
    ensures begins { BeginsAt sizes.now result }
    ensures later { from.number ≤ result.number }
    ensures behind { place ≤ result.start }
{
    let Edge { number, start } = edge_before(sizes, from, place);
    if start == place {
        return Edge { number, start };
    }
    Edge {
        number: number + 1,
        start: start + size_at(sizes, number),
    }
}

impl Shown {
    /// The text of these pieces. Takes time and memory in its bytes.
    pub fn new(alloc: Global, text: &Text) -> Result<Shown, NoMemory>
        ensures { IfOk result (λ shown. shown ≡ text.now) }
    {
        let bytes = Vec::from_slice(alloc, text.as_str().as_bytes())?;
        let mut sizes = Vec::with_capacity(alloc, text.len())?;
        for number in 0..text.len() {
            sizes.push(text.size(number).unwrap_or(0))?;
        }
        Ok(Shown {
            alloc,
            bytes,
            sizes,
        })
    }

    /// Its bytes.
    pub fn bytes(&self) -> &[u8]
        ensures { result.now ≡ concat self.now }
    {
        &self.bytes
    }

    // The text with pieces of these bytes and sizes in place of so many from a place on, and the row of that.
    fn with(&self, at: usize, out: usize, put: &[u8], put_sizes: &[u8]) -> Result<Changed, NoMemory>
        requires room { at + out < 2 ^ 64 }
        requires sizes { sum put_sizes.now ≡ length put.now }
        ensures shown { IfOk result (λ made. made.shown ≡ with_pieces self.now at out (cut put_sizes.now put.now)) }
        ensures row { IfOk result (λ made. Makes (concat self.now) (concat made.shown) made.row) }
    {
        let start = start_of(&self.sizes, at);
        let gone = start_of(&self.sizes, at + out).saturating_sub(start);
        let row = TextRow::of(self.alloc, &self.bytes, start, gone, put)?;
        let bytes = replaced(self.alloc, &self.bytes, start, gone, put)?;
        let sizes = replaced(self.alloc, &self.sizes, at, out, put_sizes)?;
        Ok(Changed {
            shown: Shown {
                alloc: self.alloc,
                bytes,
                sizes,
            },
            row,
        })
    }

    /// The text with an edit in it, and the row of that. Takes time and memory in the length of the text.
    pub fn edited(&self, edit: &LocalEdit) -> Result<Changed, NoMemory>
        ensures shown { IfOk result (λ made. made.shown ≡ text_edited self.now edit.now) }
        ensures row { IfOk result (λ made. Makes (concat self.now) (concat made.shown) made.row) }
    {
        match edit {
            LocalEdit::Insert { at, letter } => {
                let put = letter.bytes();
                self.with(*at as usize, 0, put, &[put.len() as u8])
            }
            LocalEdit::Delete { at } => self.with(*at as usize, 1, &[], &[]),
            LocalEdit::Update { at, letter } => self.updated(*at as usize, letter),
        }
    }

    // The text with another piece at a place, and the row of that. Where there is none nothing changes.
    fn updated(&self, at: usize, letter: &Piece) -> Result<Changed, NoMemory>
        ensures shown { IfOk result (λ made. made.shown ≡ slice_set self.now at letter.now) }
        ensures row { IfOk result (λ made. Makes (concat self.now) (concat made.shown) made.row) }
    {
        if at >= self.sizes.len() {
            return self.with(0, 0, &[], &[]);
        }
        let put = letter.bytes();
        self.with(at, 1, put, &[put.len() as u8])
    }

    /// Makes an edit in the text, and gives it as a row of the bytes. Takes time and memory in the length of the text.
    pub fn change(&mut self, edit: &LocalEdit) -> Result<TextRow, NoMemory>
        ensures after { OnOk result (self.new ≡ text_edited self.old edit.now) }
        ensures row { IfOk result (Makes (concat self.old) (concat self.new)) }
        ensures unchanged { OnErr result (self.new ≡ self.old) }
    {
        let Changed { shown, row } = self.edited(edit)?;
        *self = shown;
        Ok(row)
    }

    /// The pieces that are to be replaced, so that this text comes in place of a range of bytes: what stands beside the
    /// range in its first and its last piece is written anew. A place past the end counts as the end.
    ///
    /// It takes the time of the pieces in front of the range's end, and memory for the new ones.
    pub fn replacement(&self, span: Span, text: &[u8]) -> Result<Replacement, CutFail>
        ensures text { IfOk result (λ r. concat (with_pieces self.now r.at r.out r.put.items)
            ≡ replaced (concat self.now) span.from (span.to - span.from) text.now) }
        ensures within { IfOk result (λ r. r.at + r.out ≤ length self.now) }
    {
        let to = span.to.min(self.bytes.len());
        let from = span.from.min(to);
        let first = edge_before(&self.sizes, FRONT, from);
        let last = edge_behind(&self.sizes, first, to);
        let front = &self.bytes[first.start..from];
        let back = &self.bytes[to..last.start];
        Ok(Replacement {
            at: first.number,
            out: last.number - first.number,
            put: pieces_of(self.alloc, front, text, back)?,
        })
    }
}
