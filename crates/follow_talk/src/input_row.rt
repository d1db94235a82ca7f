//! The lines that a program writes.
ghost use Rattle.std.specs.Prelude.{◌≡◌, ◌==◌, ◌<◌, false, None, Some, IfSome, MatchOption, length, option_map, position};
ghost use Rattle.line_read.specs.ReadsAs.{ReadsAs, ReadsItems};
ghost use Rattle.line_read.specs.Step.{step_line};
ghost use Rattle.follow_talk.specs.declared.input_row.InputRow.{InputRow};
ghost use Rattle.follow_talk.specs.InputRows.{first_word, behind_word, spelled_byte, spelled_bytes, read_text, read_end, read_replace, read_seen, read_behind, read_words, read_row};

use coop_request::is_text;
use line_read::{read_number, read_wide, step_line};
use line_spelling::{BACKSLASH, LINE_END, LINE_END_LETTER, LineFail, SPACE};
use peer_step::Step;
use std::alloc::Global;
use std::marker::Model;

/// How many bytes a line has at most, without its line end. A line of steps has at most
/// [`MAX_LINE`](line_spelling::MAX_LINE).
pub const MAX_ROW: usize = 65_536;

/// How many rows a program may say that it has seen: more than it can be told.
pub(crate) const MOST_ROWS: u64 = 1 << 59;

/// The text of a line, seen as its bytes.
#[derive(Drop)]
pub(crate) struct RowText {
    pub(crate) bytes: Vec<u8>,
}

impl Model for RowText {
    ghost use Rattle.std.specs.Prelude.{ℕ, List};

    ghost Value = { List ℕ };

    ghost view = { λ t. t.bytes.items };
}

/// What a line asks for.
#[derive(Drop)]
pub(crate) enum InputRow {
    /// A step.
    Make(Step),
    /// That a text comes in place of the letters from one place up to another.
    Replace { from: u32, to: u32, text: RowText },
    /// The whole text, from which on the program has what it was told.
    Whole,
    /// The entries of the rules.
    Rules,
    /// Nothing: the program has seen so many rows.
    Seen(u64),
}

// The place of the first space.
fn space_in(line: &[u8]) -> Option<usize>
    ensures value { result ≡ position (λ b. b == SPACE) line.now }
    ensures within { IfSome result (λ i. i < length line.now) }
{
    line.iter().position(|b| *b == SPACE)
}

// What stands in front of the first space.
fn first_word(line: &[u8]) -> &[u8]
    ensures { result.now ≡ first_word line.now }
{
    match space_in(line) {
        Some(at) => &line[..at],
        None => line,
    }
}

// What stands behind it, if there is one.
fn behind_word(line: &[u8]) -> Option<&[u8]>
    ensures { MatchOption result (behind_word line.now ≡ None) (λ rest. behind_word line.now ≡ Some rest.now) }
{
    match space_in(line) {
        Some(at) => Some(&line[at + 1..]),
        None => None,
    }
}

// The byte that a letter behind a backslash spells.
fn spelled_byte(letter: u8) -> Option<u8>
    ensures { result ≡ spelled_byte letter }
{
    match letter {
        LINE_END_LETTER => Some(LINE_END),
        BACKSLASH => Some(BACKSLASH),
        _ => None,
    }
}

// The bytes that a text spells.
fn spelled_bytes(alloc: Global, spelled: &[u8]) -> Result<Vec<u8>, LineFail>
    ensures { ReadsItems result (spelled_bytes false spelled.now) }
{
    let mut bytes = Vec::with_capacity(alloc, spelled.len())?;
    let mut behind = false;
    for letter in spelled {
        let letter = *letter;
        if behind {
            let byte = spelled_byte(letter).ok_or(LineFail::Bad)?;
            bytes.push(byte)?;
            behind = false;
        } else if letter == BACKSLASH {
            behind = true;
        } else {
            bytes.push(letter)?;
        }
    }
    if behind {
        return Err(LineFail::Bad);
    }
    Ok(bytes)
}

// The text that bytes spell.
#[tactic(auto, unfolding(crate::specs::InputRows::read_text))]
fn read_text(alloc: Global, spelled: &[u8]) -> Result<RowText, LineFail>
    ensures { ReadsAs result (read_text spelled.now) }
{
    if !is_text(spelled) {
        return Err(LineFail::Bad);
    }
    let bytes = spelled_bytes(alloc, spelled)?;
    Ok(RowText { bytes })
}

// The text behind a place, which isn't empty where a space stands there.
#[tactic(auto, unfolding(crate::specs::InputRows::read_end))]
fn read_end(alloc: Global, rest: Option<&[u8]>) -> Result<RowText, LineFail>
    ensures { MatchOption rest.entry (ReadsAs result (read_end None)) (λ r. ReadsAs result (read_end (Some r.now))) }
{
    let Some(spelled) = rest else {
        return Ok(RowText {
            bytes: Vec::new(alloc),
        });
    };
    if spelled.is_empty() {
        return Err(LineFail::Bad);
    }
    read_text(alloc, spelled)
}

// Reads `FROM TO TEXT`, or `FROM TO` where the text is empty.
#[tactic(auto, unfolding(crate::specs::InputRows::read_replace))]
fn read_replace(alloc: Global, words: &[u8]) -> Result<InputRow, LineFail>
    ensures { ReadsAs result (read_replace words.now) }
{
    let from = read_wide(first_word(words)).ok_or(LineFail::Bad)?;
    let Some(rest) = behind_word(words) else {
        return Err(LineFail::Bad);
    };
    let to = read_wide(first_word(rest)).ok_or(LineFail::Bad)?;
    let text = read_end(alloc, behind_word(rest))?;
    if from > to {
        return Err(LineFail::Bad);
    }
    Ok(InputRow::Replace { from, to, text })
}

// Reads how many rows a program has seen.
#[tactic(auto, unfolding(crate::specs::InputRows::read_seen))]
fn read_seen(word: &[u8]) -> Result<InputRow, LineFail>
    ensures { ReadsAs result (read_seen word.now) }
{
    let count = read_number(MOST_ROWS, word).ok_or(LineFail::Bad)?;
    Ok(InputRow::Seen(count))
}

// Reads a step.
fn read_step(alloc: Global, line: &[u8]) -> Result<InputRow, LineFail>
    ensures { ReadsAs result (option_map InputRow.Make (step_line line.now)) }
{
    Ok(InputRow::Make(step_line(alloc, line)?))
}

// Reads a line by its first word and what stands behind that.
fn read_behind(alloc: Global, word: &[u8], rest: &[u8], line: &[u8]) -> Result<InputRow, LineFail>
    ensures { ReadsAs result (read_behind word.now rest.now (option_map InputRow.Make (step_line line.now))) }
{
    if word == b"replace".as_slice() {
        return read_replace(alloc, rest);
    }
    if word == b"seen".as_slice() {
        return read_seen(rest);
    }
    read_step(alloc, line)
}

// Reads a line that isn't one word alone, or is a step.
fn read_words(alloc: Global, line: &[u8]) -> Result<InputRow, LineFail>
    ensures { ReadsAs result (read_words line.now) }
{
    match behind_word(line) {
        Some(rest) => read_behind(alloc, first_word(line), rest, line),
        None => read_step(alloc, line),
    }
}

/// Reads a line, for its bytes without the line end: `replace FROM TO TEXT`, `text`, `seen COUNT`, `rules`, or a step
/// line. Takes time and memory in their number.
#[tactic(auto, unfolding(crate::specs::InputRows::read_row))]
pub(crate) fn read_row(alloc: Global, line: &[u8]) -> Result<InputRow, LineFail>
    ensures { ReadsAs result (read_row line.now) }
{
    if line.len() > MAX_ROW {
        return Err(LineFail::Bad);
    }
    if line == b"text".as_slice() {
        return Ok(InputRow::Whole);
    }
    if line == b"rules".as_slice() {
        return Ok(InputRow::Rules);
    }
    read_words(alloc, line)
}
