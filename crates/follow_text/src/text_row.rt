//! Changes of a text, by its bytes.
ghost use Rattle.std.specs.Prelude.{◌≡◌, ◌-◌, ◌≤◌, ◌++◌, length, take, drop, IfOk, OnOk, OnErr};
ghost use Rattle.follow_text.specs.Rows.{replaced, with_row, with_rows, IsRowOf, IsDifference};

use crate::letters::{is_lead, letter_count};
use element_name::NoMemory;
use std::alloc::{AllocError, Global};

/// A change of a text: from a place on so many bytes are taken out, and these are put in.
///
/// It says also how many letters stand in front of the place, and how many are taken out.
#[derive(Drop)]
pub struct TextRow {
    pub at: usize,
    pub out: usize,
    pub put: Vec<u8>,
    pub letters_before: usize,
    pub letters_out: usize,
}

// Three texts, one behind another.
fn joined(alloc: Global, front: &[u8], middle: &[u8], back: &[u8]) -> Result<Vec<u8>, AllocError>
    ensures { IfOk result (λ v. v.items ≡ front.now ++ (middle.now ++ back.now)) }
{
    let len = front.len().saturating_add(middle.len());
    let mut all = Vec::with_capacity(alloc, len.saturating_add(back.len()))?;
    all.extend_from_slice(front)?;
    all.extend_from_slice(middle)?;
    all.extend_from_slice(back)?;
    Ok(all)
}

/// A text with another one in place of so many bytes from a place on. A place past its end counts as its end.
pub(crate) fn replaced(
    alloc: Global,
    bytes: &[u8],
    at: usize,
    out: usize,
    put: &[u8],
) -> Result<Vec<u8>, AllocError>
    ensures { IfOk result (λ v. v.items ≡ replaced bytes.now at out put.now) }
{
    let (front, rest) = bytes.split_at(at.min(bytes.len()));
    let (_, back) = rest.split_at(out.min(rest.len()));
    let text = joined(alloc, front, put, back)?;
    Ok(text)
}

/// A text with rows in it, one after another.
pub(crate) fn with_rows(
    alloc: Global,
    bytes: &[u8],
    rows: &[TextRow],
) -> Result<Vec<u8>, AllocError>
    ensures { IfOk result (λ v. v.items ≡ with_rows bytes.now rows.now) }
{
    let mut text = Vec::from_slice(alloc, bytes)?;
    for row in rows {
        text = replaced(alloc, &text, row.at, row.out, &row.put)?;
    }
    Ok(text)
}

impl TextRow {
    /// The row of a change of these bytes. A place past their end counts as their end. Takes time in the bytes up to what
    /// is taken out.
    pub fn of(
        alloc: Global,
        bytes: &[u8],
        at: usize,
        out: usize,
        put: &[u8],
    ) -> Result<TextRow, AllocError>
        ensures row { IfOk result (IsRowOf bytes.now) }
        ensures change { IfOk result (λ row. with_row bytes.now row ≡ replaced bytes.now at out put.now) }
    {
        let put = Vec::from_slice(alloc, put)?;
        let (front, rest) = bytes.split_at(at.min(bytes.len()));
        let (gone, _) = rest.split_at(out.min(rest.len()));
        Ok(TextRow {
            at: front.len(),
            out: gone.len(),
            put,
            letters_before: letter_count(front),
            letters_out: letter_count(gone),
        })
    }
}

// How many bytes two texts begin with alike.
fn alike_in_front(old: &[u8], new: &[u8]) -> usize
    ensures old { result ≤ length old.now }
    ensures new { result ≤ length new.now }
    ensures alike { take result old.now ≡ take result new.now }
{
    let most = old.len().min(new.len());
    for count in 0..most {
        if old[count] != new[count] {
            return count;
        }
    }
    most
}

// How many bytes two texts end with alike.
fn alike_at_end(old: &[u8], new: &[u8]) -> usize
    ensures old { result ≤ length old.now }
    ensures new { result ≤ length new.now }
    ensures alike { drop (length old.now - result) old.now ≡ drop (length new.now - result) new.now }
{
    let most = old.len().min(new.len());
    for count in 0..most {
        if old[old.len() - 1 - count] != new[new.len() - 1 - count] {
            return count;
        }
    }
    most
}

// Whether a letter begins at a place, or the bytes end there.
fn is_edge(bytes: &[u8], at: usize) -> bool {
    match bytes.get(at) {
        Some(byte) => is_lead(*byte),
        None => true,
    }
}

// The last place up to this one at which letters begin in both texts.
fn edge_up_to(old: &[u8], new: &[u8], at: usize) -> usize
    ensures { result ≤ at }
{
    for place in (1..=at).rev() {
        if is_edge(old, place) && is_edge(new, place) {
            return place;
        }
    }
    0
}

// The most bytes at the ends, up to so many, that begin with a letter in both texts.
fn end_up_to(old: &[u8], new: &[u8], most: usize) -> usize
    requires old { most ≤ length old.now }
    requires new { most ≤ length new.now }
    ensures { result ≤ most }
{
    for count in (1..=most).rev() {
        if is_edge(old, old.len() - count) && is_edge(new, new.len() - count) {
            return count;
        }
    }
    0
}

/// The row that makes one text of another; none where they are the same. Takes time in their length.
pub fn difference(alloc: Global, old: &[u8], new: &[u8]) -> Result<Option<TextRow>, NoMemory>
    ensures { IfOk result (IsDifference old.now new.now) }
{
    if old == new {
        return Ok(None);
    }
    let front = edge_up_to(old, new, alike_in_front(old, new));
    let (_, old_rest) = old.split_at(front);
    let (_, new_rest) = new.split_at(front);
    let end = end_up_to(old_rest, new_rest, alike_at_end(old_rest, new_rest));
    let (put, _) = new_rest.split_at(new_rest.len() - end);
    let out = old_rest.len() - end;
    Ok(Some(TextRow::of(alloc, old, front, out, put)?))
}
