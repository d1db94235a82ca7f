//! Lines and their words.
ghost use Rattle.std.specs.Prelude.{◌≡◌, ◌==◌, ◌+◌, ◌≤◌, ◌<◌, Some, None, IfOk, IfErr, IfSome, IfNone, length, position, take, drop};
ghost use Rattle.std.specs.List.{list_any};
ghost use Rattle.std.specs.Str.{is_utf8};
ghost use Rattle.line_read.specs.Words.{is_line, parts, words, are_none, lone_word, both_words, is_alone, bytes_of};

use bstr::ByteSlice;
use element_name::NoMemory;
use line_spelling::{LINE_END, LineFail, MAX_LINE, SPACE};
use std::alloc::{AllocError, Global};

/// How many words a row has room for in which a line's words are put: more than a line of any grammar here has.
pub const MOST_WORDS: usize = 16;

fn is_text(bytes: &[u8]) -> bool
    ensures { result ≡ is_utf8 bytes.now }
{
    bytes.is_utf8()
}

fn has_line_end(bytes: &[u8]) -> bool
    ensures { result ≡ list_any (λ b. b == LINE_END) bytes.now }
{
    bytes.iter().any(|b| *b == LINE_END)
}

/// Whether the bytes can be a line: text without a line end, and not too long. Takes time in their number.
pub fn is_line(bytes: &[u8]) -> bool
    ensures { result ≡ is_line bytes.now }
{
    bytes.len() <= MAX_LINE && !has_line_end(bytes) && is_text(bytes)
}

/// The parts between the separators.
pub(crate) fn parts<'a>(
    alloc: Global,
    separator: u8,
    bytes: &'a [u8],
) -> Result<Vec<&'a [u8]>, AllocError>
    ensures { IfOk result (λ found. bytes_of found.items ≡ parts separator bytes.now) }
{
    bytes.split(|b| *b == separator).collect(alloc)
}

/// The words of a line. Takes time and memory in the number of its bytes.
pub fn words_of<'a>(alloc: Global, line: &'a [u8]) -> Result<Vec<&'a [u8]>, NoMemory>
    ensures { IfOk result (λ found. bytes_of found.items ≡ words line.now) }
{
    Ok(parts(alloc, SPACE, line)?)
}

// The place of the first space.
fn first_space(line: &[u8]) -> Option<usize>
    ensures value { result ≡ position (λ b. b == SPACE) line.now }
    ensures within { IfSome result (λ i. i < length line.now) }
{
    line.iter().position(|b| *b == SPACE)
}

// What stands in front of a place.
fn in_front(line: &[u8], at: usize) -> &[u8]
    requires { at ≤ length line.now }
    ensures { result.now ≡ take at line.now }
{
    &line[..at]
}

// What stands behind the byte at a place.
fn behind(line: &[u8], at: usize) -> &[u8]
    requires { at < length line.now }
    ensures { result.now ≡ drop (at + 1) line.now }
{
    &line[at + 1..]
}

/// Puts the words of a line into a row, from its front on, and says how many there are; none where the row has no room for
/// all of them. Takes time in the number of the line's bytes, and no memory.
pub fn split_words<'a>(line: &'a [u8], row: &mut [&'a [u8]]) -> Option<usize>
    ensures within { IfSome result (λ count. count ≤ length row.new) }
    ensures words { IfSome result (λ count. bytes_of (take count row.new) ≡ words line.now) }
    ensures none { IfNone result (length row.old < length (words line.now)) }
{
    let mut count = 0;
    let mut rest = line;
    while count < row.len() {
        let Some(end) = first_space(rest) else {
            row[count] = rest;
            return Some(count + 1);
        };
        row[count] = in_front(rest, end);
        rest = behind(rest, end);
        count += 1;
    }
    None
}

pub(crate) fn are_none(words: &[&[u8]]) -> bool
    ensures { result ≡ are_none (bytes_of words.now) }
{
    words.is_empty()
}

/// The word, where it is the only one.
pub(crate) fn lone_word<'a>(words: &[&'a [u8]]) -> Result<&'a [u8], LineFail>
    ensures ok { IfOk result (λ word. lone_word (bytes_of words.now) ≡ Some word.now) }
    ensures bad { IfErr result (λ fail. (fail ≡ LineFail.Bad) × (lone_word (bytes_of words.now) ≡ None)) }
{
    match words {
        [word] => Ok(*word),
        _ => Err(LineFail::Bad),
    }
}

/// The two words, where there are no others.
pub(crate) fn both_words<'a>(words: &[&'a [u8]]) -> Result<(&'a [u8], &'a [u8]), LineFail>
    ensures ok { IfOk result (λ both. both_words (bytes_of words.now) ≡ Some (both.0.now, both.1.now)) }
    ensures bad { IfErr result (λ fail. (fail ≡ LineFail.Bad) × (both_words (bytes_of words.now) ≡ None)) }
{
    match words {
        [first, second] => Ok((*first, *second)),
        _ => Err(LineFail::Bad),
    }
}

/// Whether there is one word, and this one.
pub fn is_alone(word: &[u8], words: &[&[u8]]) -> bool
    ensures { result ≡ is_alone word.now (bytes_of words.now) }
{
    match words {
        [w] => *w == word,
        _ => false,
    }
}
