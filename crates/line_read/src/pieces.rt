//! Pieces of text, as words.
ghost use Rattle.std.specs.Prelude.{◌≡◌, ◌==◌, false, Some, IfSome};
ghost use Rattle.std.specs.List.{list_any};
ghost use Rattle.line_read.specs.ReadsAs.{ReadsAs, ReadsItems};
ghost use Rattle.line_read.specs.Pieces.{escape_byte, unescaped_bytes, read_piece};

use coop_request::{LentPiece, Piece};
use line_spelling::{BACKSLASH, LINE_END, LINE_END_LETTER, LineFail, SPACE, SPACE_LETTER};
use std::alloc::Global;

// The byte that `\` and this byte stand for.
fn escape_byte(b: u8) -> Option<u8>
    ensures { result ≡ escape_byte b }
{
    match b {
        LINE_END_LETTER => Some(LINE_END),
        SPACE_LETTER => Some(SPACE),
        BACKSLASH => Some(BACKSLASH),
        _ => None,
    }
}

// The bytes that a word stands for.
fn unescaped_bytes(alloc: Global, word: &[u8]) -> Result<Vec<u8>, LineFail>
    ensures { ReadsItems result (unescaped_bytes false word.now) }
{
    let mut bytes = Vec::new(alloc);
    let mut behind = false;
    for b in word {
        let b = *b;
        if behind {
            let byte = escape_byte(b).ok_or(LineFail::Bad)?;
            bytes.push(byte)?;
            behind = false;
        } else if b == BACKSLASH {
            behind = true;
        } else {
            bytes.push(b)?;
        }
    }
    if behind {
        return Err(LineFail::Bad);
    }
    Ok(bytes)
}

fn has_backslash(word: &[u8]) -> bool
    ensures { result ≡ list_any (λ b. b == BACKSLASH) word.now }
{
    word.iter().any(|b| *b == BACKSLASH)
}

/// The piece that a word spells. Takes no memory where the word has no `\`.
#[tactic(auto, unfolding(crate::specs::Pieces::read_piece))]
pub(crate) fn read_piece(alloc: Global, word: &[u8]) -> Result<Piece, LineFail>
    ensures { ReadsAs result (read_piece word.now) }
{
    if !has_backslash(word) {
        return Piece::checked(word).ok_or(LineFail::Bad);
    }
    let bytes = unescaped_bytes(alloc, word)?;
    Piece::checked(&bytes).ok_or(LineFail::Bad)
}

// The byte that a word of `\` and one letter stands for.
fn lone_escape(word: &[u8]) -> Option<&'static [u8]>
    ensures { IfSome result (λ bytes. unescaped_bytes false word.now ≡ Some bytes.now) }
{
    match word {
        [BACKSLASH, LINE_END_LETTER] => Some(&[LINE_END]),
        [BACKSLASH, SPACE_LETTER] => Some(&[SPACE]),
        [BACKSLASH, BACKSLASH] => Some(&[BACKSLASH]),
        _ => None,
    }
}

/// The piece that a word spells, where it needs no room: its bytes stay in a word that has no `\`, and those of a word of
/// `\` and one letter are constants.
#[tactic(auto, unfolding(crate::specs::Pieces::read_piece))]
pub(crate) fn lent_piece(word: &[u8]) -> Option<LentPiece<'_>>
    ensures { IfSome result (λ piece. read_piece word.now ≡ Some piece) }
{
    if !has_backslash(word) {
        return LentPiece::checked(word);
    }
    LentPiece::checked(lone_escape(word)?)
}
