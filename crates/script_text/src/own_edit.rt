//! Own edits in script lines, and what is given.
ghost use Rattle.std.specs.Prelude.{◌≡◌, ◌<◌, ◌∷◌, Some, IfSome, false, slice_get};
ghost use Rattle.std.specs.Option.{option_map_or};
ghost use Rattle.std.specs.Char.{is_ascii_digit};
ghost use Rattle.peer_step.specs.Lent.{local_edit_lent};
ghost use Rattle.line_read.specs.Words.{bytes_of};
ghost use Rattle.script_text.specs.Line.{read_later, script_line};

use crate::peers::{read_count, read_peer};
use line_read::{is_line, read_lent_edit, split_words};
use peer_step::{LentLocalEdit, Step};
use replay_net::Line;

/// How many words the line of an own edit has at most.
const EDIT_WORDS: usize = 4;

/// How many words the line has that gives an issued message to a peer.
const GIVE_WORDS: usize = 3;

/// An edit of a peer's own, with a piece that lies elsewhere.
#[derive(Drop)]
pub struct OwnEdit<'a> {
    /// The peer's number.
    pub peer: u32,
    /// Its edit.
    pub edit: LentLocalEdit<'a>,
}

/// An issued message that is given to a peer.
#[derive(Clone, Copy)]
pub struct Given {
    /// The message's number, from 1.
    pub message: u32,
    /// The peer's number.
    pub peer: u32,
}

// Whether a line begins with a digit, as one that begins with a peer does, and none that begins with a word.
fn begins_with_digit(bytes: &[u8]) -> bool
    ensures { result ≡ option_map_or is_ascii_digit (slice_get bytes.now 0) false }
{
    match bytes {
        [first, ..] => first.is_ascii_digit(),
        [] => false,
    }
}

// A peer and its edit.
fn edit_of_peer<'a>(peers: u32, number: &[u8], words: &[&'a [u8]]) -> Option<OwnEdit<'a>>
    ensures says { IfSome result (λ own. read_later peers (number.now ∷ bytes_of words.now) ≡ Some (Line.Local own.peer (Step.Edit (local_edit_lent own.edit)))) }
    ensures within { IfSome result (λ own. own.peer < peers) }
{
    let peer = read_peer(peers, number)?;
    let edit = read_lent_edit(words)?;
    Some(OwnEdit { peer, edit })
}

// The same by all words of the line.
fn own_edit<'a>(peers: u32, words: &[&'a [u8]]) -> Option<OwnEdit<'a>>
    ensures says { IfSome result (λ own. read_later peers (bytes_of words.now) ≡ Some (Line.Local own.peer (Step.Edit (local_edit_lent own.edit)))) }
    ensures within { IfSome result (λ own. own.peer < peers) }
{
    match words {
        [number, words @ ..] => edit_of_peer(peers, number, words),
        [] => None,
    }
}

/// What a later line of a script says, for its bytes without the line end in a world of so many peers, where it is an own
/// edit whose piece needs no room. Takes time in the number of bytes, and no memory.
///
/// None says nothing of the line: [`crate::script_line`] reads each.
pub fn script_edit(bytes: &[u8], peers: u32) -> Option<OwnEdit<'_>>
    ensures says { IfSome result (λ own. script_line false peers bytes.now ≡ Some (Line.Local own.peer (Step.Edit (local_edit_lent own.edit)))) }
    ensures within { IfSome result (λ own. own.peer < peers) }
{
    if !begins_with_digit(bytes) || !is_line(bytes) {
        return None;
    }
    let mut row = [&bytes[..0]; EDIT_WORDS];
    let count = split_words(bytes, &mut row)?;
    own_edit(peers, &row[..count])
}

// A message's number and a peer, behind the word.
fn read_given(peers: u32, words: &[&[u8]]) -> Option<Given>
    ensures says { IfSome result (λ given. read_later peers (bytes_of words.now) ≡ Some (Line.Give given.message given.peer)) }
    ensures within { IfSome result (λ given. given.peer < peers) }
{
    match words {
        [word, a, b] if *word == b"give".as_slice() => {
            let message = read_count(u32::MAX, a)?;
            let peer = read_peer(peers, b)?;
            Some(Given { message, peer })
        }
        _ => None,
    }
}

/// What a later line of a script says, as [`script_edit`] reads it, where it gives an issued message to a peer.
pub fn script_give(bytes: &[u8], peers: u32) -> Option<Given>
    ensures says { IfSome result (λ given. script_line false peers bytes.now ≡ Some (Line.Give given.message given.peer)) }
    ensures within { IfSome result (λ given. given.peer < peers) }
{
    if !is_line(bytes) {
        return None;
    }
    let mut row = [&bytes[..0]; GIVE_WORDS];
    let count = split_words(bytes, &mut row)?;
    read_given(peers, &row[..count])
}
