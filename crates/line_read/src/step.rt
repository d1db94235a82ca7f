//! Step lines.
ghost use Rattle.std.specs.Prelude.{◌≡◌, IfOk, IfSome, IsErrOf, Some, None};
ghost use Rattle.peer_step.specs.Lent.{local_edit_lent};
ghost use Rattle.line_read.specs.Words.{bytes_of, words};
ghost use Rattle.line_read.specs.ReadsAs.{ReadsAs};
ghost use Rattle.line_read.specs.Step.{place_and_piece, read_local_edit, read_plain, read_step, step_line};

use crate::fail::without_bad;
use crate::message::message_of;
use crate::numbers::{one_wide, read_wide};
use crate::operation::operation_of;
use crate::pieces::{lent_piece, read_piece};
use crate::words::{MOST_WORDS, are_none, both_words, is_line, split_words, words_of};
use coop_request::{LentPiece, Piece};
use element_name::NoMemory;
use line_spelling::LineFail;
use peer_step::{LentLocalEdit, LocalEdit, Step};
use std::alloc::Global;

fn place_and_piece(alloc: Global, args: &[&[u8]]) -> Result<(u32, Piece), LineFail>
    ensures { ReadsAs result (place_and_piece (bytes_of args.now)) }
{
    let (place, piece) = both_words(args)?;
    let place = read_wide(place).ok_or(LineFail::Bad)?;
    Ok((place, read_piece(alloc, piece)?))
}

// The edit at a place that the words spell.
#[tactic(auto, unfolding(crate::specs::Step::read_local_edit))]
fn local_edit_of(alloc: Global, words: &[&[u8]]) -> Result<LocalEdit, LineFail>
    ensures { ReadsAs result (read_local_edit (bytes_of words.now)) }
{
    let [word, args @ ..] = words else {
        return Err(LineFail::Bad);
    };
    if *word == b"insert".as_slice() {
        let (at, letter) = place_and_piece(alloc, args)?;
        return Ok(LocalEdit::Insert { at, letter });
    }
    if *word == b"delete".as_slice() {
        let at = one_wide(args)?;
        return Ok(LocalEdit::Delete { at });
    }
    if *word == b"update".as_slice() {
        let (at, letter) = place_and_piece(alloc, args)?;
        return Ok(LocalEdit::Update { at, letter });
    }
    Err(LineFail::Bad)
}

/// An edit at a place, by its words. Takes time in their length.
pub fn read_local_edit(alloc: Global, words: &[&[u8]]) -> Result<Option<LocalEdit>, NoMemory>
    ensures { IfOk result (λ found. found ≡ read_local_edit (bytes_of words.now)) }
{
    without_bad(local_edit_of(alloc, words))
}

// A place, and a piece that needs no room.
fn place_and_lent<'a>(args: &[&'a [u8]]) -> Option<(u32, LentPiece<'a>)>
    ensures { IfSome result (λ both. place_and_piece (bytes_of args.now) ≡ Some both) }
{
    let (place, piece) = both_words(args).ok()?;
    let place = read_wide(place)?;
    Some((place, lent_piece(piece)?))
}

/// An edit at a place, by its words, whose piece needs no room: it is written as itself, or as `\` and one letter. Takes time in
/// their length, and no memory.
///
/// None where the words spell no edit, or another piece: for these there is [`read_local_edit`].
#[tactic(auto, unfolding(crate::specs::Step::read_local_edit))]
pub fn read_lent_edit<'a>(words: &[&'a [u8]]) -> Option<LentLocalEdit<'a>>
    ensures { IfSome result (λ edit. read_local_edit (bytes_of words.now) ≡ Some (local_edit_lent edit)) }
{
    let [word, args @ ..] = words else {
        return None;
    };
    if *word == b"insert".as_slice() {
        let (at, letter) = place_and_lent(args)?;
        return Some(LentLocalEdit::Insert { at, letter });
    }
    if *word == b"delete".as_slice() {
        let at = one_wide(args).ok()?;
        return Some(LentLocalEdit::Delete { at });
    }
    if *word == b"update".as_slice() {
        let (at, letter) = place_and_lent(args)?;
        return Some(LentLocalEdit::Update { at, letter });
    }
    None
}

// A step that is one word.
#[tactic(auto, unfolding(crate::specs::Step::read_plain))]
fn read_plain(word: &[u8]) -> Option<Step>
    ensures { result ≡ read_plain word.now }
{
    if word == b"show".as_slice() {
        return Some(Step::Show);
    }
    if word == b"settle".as_slice() {
        return Some(Step::Settle);
    }
    if word == b"validatenext".as_slice() {
        return Some(Step::ValidateNext);
    }
    None
}

// A step by its words.
#[tactic(auto, unfolding(crate::specs::Step::read_step))]
fn read_step(alloc: Global, words: &[&[u8]]) -> Result<Step, LineFail>
    ensures { ReadsAs result (read_step (bytes_of words.now)) }
{
    let [word, args @ ..] = words else {
        return Err(LineFail::Bad);
    };
    if *word == b"edit".as_slice() {
        return Ok(Step::Edit(local_edit_of(alloc, args)?));
    }
    if *word == b"look".as_slice() {
        let from = one_wide(args)?;
        return Ok(Step::Look { from });
    }
    if *word == b"message".as_slice() {
        return Ok(Step::Receive(message_of(alloc, args)?));
    }
    if *word == b"admin".as_slice() {
        return Ok(Step::Administer(operation_of(alloc, args)?));
    }
    if !are_none(args) {
        return Err(LineFail::Bad);
    }
    read_plain(word).ok_or(LineFail::Bad)
}

// A step by the words of its line, however many they are. Of the grammar no line comes here.
#[cold]
#[inline(never)]
fn long_step(alloc: Global, line: &[u8]) -> Result<Step, LineFail>
    ensures { ReadsAs result (read_step (words line.now)) }
{
    let Ok(words) = words_of(alloc, line) else {
        return Err(LineFail::NoMemory);
    };
    read_step(alloc, &words)
}

/// The step that a step line says, for its bytes without the line end. Takes time in their number.
///
/// `Bad` says that they aren't in the grammar.
pub fn step_line(alloc: Global, bytes: &[u8]) -> Result<Step, LineFail>
    ensures ok { IfOk result (λ step. step_line bytes.now ≡ Some step) }
    ensures bad { IsErrOf result LineFail.Bad → step_line bytes.now ≡ None }
{
    if !is_line(bytes) {
        return Err(LineFail::Bad);
    }
    let mut row = [&bytes[..0]; MOST_WORDS];
    match split_words(bytes, &mut row) {
        Some(count) => read_step(alloc, &row[..count]),
        None => long_step(alloc, bytes),
    }
}
