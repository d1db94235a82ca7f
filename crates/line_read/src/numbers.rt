//! Numbers and names, as words.
ghost use Rattle.std.specs.Prelude.{◌≡◌, ◌==◌, ◌≤◌, ◌<◌, ◌^◌, IfSome, length, position};
ghost use Rattle.std.specs.List.{list_all};
ghost use Rattle.std.specs.Char.{is_ascii_digit};
ghost use Rattle.line_read.specs.Words.{bytes_of};
ghost use Rattle.line_read.specs.ReadsAs.{ReadsAs};
ghost use Rattle.line_read.specs.Numbers.{is_numeral, read_number, read_short, read_wide, read_name};
ghost use Rattle.line_read.specs.Numbers.{one_short, two_shorts, one_wide, one_name};

use crate::words::{both_words, lone_word};
use element_name::{MAX_STAMP, Name};
use line_spelling::{LineFail, POINT};

/// The digit that stands for zero.
const ZERO_DIGIT: u8 = b'0';

/// The greatest number of a user, an object, a group or a place in the list of authorizations.
pub(crate) const MAX_SHORT: u64 = u16::MAX as u64;

/// The greatest place of a text and the greatest number of a message.
pub const MAX_WIDE: u64 = u32::MAX as u64;

fn are_digits(word: &[u8]) -> bool
    ensures { result ≡ list_all is_ascii_digit word.now }
{
    word.iter().all(|b| b.is_ascii_digit())
}

fn is_numeral(word: &[u8]) -> bool
    ensures { result ≡ is_numeral word.now }
{
    if word.is_empty() || !are_digits(word) {
        return false;
    }
    word.len() == 1 || word[0] != ZERO_DIGIT
}

/// The number that a word spells by its digits, with no leading zero, if it is no greater than the limit. Takes time in the
/// word's length.
#[tactic(auto, unfolding(crate::specs::Numbers::read_number))]
pub fn read_number(limit: u64, word: &[u8]) -> Option<u64>
    requires { limit < 2 ^ 60 }
    ensures value { result ≡ read_number limit word.now }
    ensures small { IfSome result (λ n. n ≤ limit) }
{
    if !is_numeral(word) {
        return None;
    }
    let mut value = 0;
    for digit in word {
        value = value * 10 + u64::from(digit.saturating_sub(ZERO_DIGIT));
        if value > limit {
            return None;
        }
    }
    Some(value)
}

/// A number of 16 bits.
pub(crate) fn read_short(word: &[u8]) -> Option<u16>
    ensures { result ≡ read_short word.now }
{
    match read_number(MAX_SHORT, word) {
        Some(n) => Some(n as u16),
        None => None,
    }
}

/// The number of 32 bits that a word spells. Takes time in the word's length.
pub fn read_wide(word: &[u8]) -> Option<u32>
    ensures { result ≡ read_wide word.now }
{
    match read_number(MAX_WIDE, word) {
        Some(n) => Some(n as u32),
        None => None,
    }
}

/// A number up to the limit.
pub(crate) fn read_up_to(limit: u32, word: &[u8]) -> Option<u32>
    ensures { result ≡ read_number limit word.now }
{
    match read_number(u64::from(limit), word) {
        Some(n) => Some(n as u32),
        None => None,
    }
}

// The place of the first point.
fn point_in(word: &[u8]) -> Option<usize>
    ensures value { result ≡ position (λ b. b == POINT) word.now }
    ensures within { IfSome result (λ i. i < length word.now) }
{
    word.iter().position(|b| *b == POINT)
}

/// The name that a word spells: a stamp, a point and a site. Takes time in the word's length.
#[tactic(auto, unfolding(crate::specs::Numbers::read_name))]
pub fn read_name(word: &[u8]) -> Option<Name>
    ensures { result ≡ read_name word.now }
{
    let point = point_in(word)?;
    let stamp = read_number(MAX_STAMP, &word[..point])?;
    let site = read_short(&word[point + 1..])?;
    Name::read(stamp, site)
}

// ---- arguments: one word or two, and no more

pub(crate) fn one_short(args: &[&[u8]]) -> Result<u16, LineFail>
    ensures { ReadsAs result (one_short (bytes_of args.now)) }
{
    let word = lone_word(args)?;
    read_short(word).ok_or(LineFail::Bad)
}

pub(crate) fn two_shorts(args: &[&[u8]]) -> Result<(u16, u16), LineFail>
    ensures { ReadsAs result (two_shorts (bytes_of args.now)) }
{
    let (a, b) = both_words(args)?;
    let m = read_short(a).ok_or(LineFail::Bad)?;
    let n = read_short(b).ok_or(LineFail::Bad)?;
    Ok((m, n))
}

pub(crate) fn one_wide(args: &[&[u8]]) -> Result<u32, LineFail>
    ensures { ReadsAs result (one_wide (bytes_of args.now)) }
{
    let word = lone_word(args)?;
    read_wide(word).ok_or(LineFail::Bad)
}

pub(crate) fn one_name(args: &[&[u8]]) -> Result<Name, LineFail>
    ensures { ReadsAs result (one_name (bytes_of args.now)) }
{
    let word = lone_word(args)?;
    read_name(word).ok_or(LineFail::Bad)
}
