//! Script lines.
ghost use Rattle.std.specs.Prelude.{◌≡◌, IfOk, IsErrOf, Some, None, IsTrue, true, false};
ghost use Rattle.replay_net.specs.Line.{is_opening, is_world_line};
ghost use Rattle.line_read.specs.ReadsAs.{ReadsAs};
ghost use Rattle.line_read.specs.Words.{bytes_of, words};
ghost use Rattle.script_text.specs.Line.{read_own, read_local, read_give, read_hand, read_look, read_state, read_later};
ghost use Rattle.script_text.specs.Line.{one_count, read_first, read_line, script_line};

use crate::peers::{one_peer, read_count, read_peer};
use element_name::NoMemory;
use line_read::{
    MOST_WORDS, is_alone, is_line, read_local_edit, read_message, read_name, read_operation,
    read_wide, split_words, words_of,
};
use line_spelling::LineFail;
use peer_step::Step;
use replay_net::{Line, MAX_PEERS};
use std::alloc::Global;

// A step of a peer's own.
#[tactic(auto, unfolding(crate::specs::Line::read_own))]
fn read_own(alloc: Global, words: &[&[u8]]) -> Result<Option<Step>, NoMemory>
    ensures { IfOk result (λ found. found ≡ read_own (bytes_of words.now)) }
{
    if let Some(edit) = read_local_edit(alloc, words)? {
        return Ok(Some(Step::Edit(edit)));
    }
    if is_alone(b"validatenext", words) {
        return Ok(Some(Step::ValidateNext));
    }
    Ok(read_operation(alloc, words)?.map(Step::Administer))
}

// A peer and its step.
#[tactic(auto, unfolding(crate::specs::Line::read_local))]
fn read_local(
    alloc: Global,
    peers: u32,
    number: &[u8],
    words: &[&[u8]],
) -> Result<Option<Line>, NoMemory>
    ensures { IfOk result (λ found. found ≡ read_local peers number.now (bytes_of words.now)) }
{
    let Some(peer) = read_peer(peers, number) else {
        return Ok(None);
    };
    let Some(step) = read_own(alloc, words)? else {
        return Ok(None);
    };
    Ok(Some(Line::Local(peer, step)))
}

// A message's number and a peer.
fn read_give(peers: u32, args: &[&[u8]]) -> Option<Line>
    ensures { result ≡ read_give peers (bytes_of args.now) }
{
    match args {
        [a, b] => {
            let message = read_count(u32::MAX, a)?;
            let peer = read_peer(peers, b)?;
            Some(Line::Give { message, peer })
        }
        _ => None,
    }
}

// A peer and a message.
fn read_hand(alloc: Global, peers: u32, args: &[&[u8]]) -> Result<Option<Line>, NoMemory>
    ensures { IfOk result (λ found. found ≡ read_hand peers (bytes_of args.now)) }
{
    let [a, words @ ..] = args else {
        return Ok(None);
    };
    let Some(peer) = read_peer(peers, a) else {
        return Ok(None);
    };
    let Some(message) = read_message(alloc, words)? else {
        return Ok(None);
    };
    Ok(Some(Line::Hand(peer, message)))
}

// A peer and a place of its journal.
fn read_look(peers: u32, args: &[&[u8]]) -> Option<Line>
    ensures { result ≡ read_look peers (bytes_of args.now) }
{
    match args {
        [a, b] => {
            let peer = read_peer(peers, a)?;
            let from = read_wide(b)?;
            Some(Line::Local(peer, Step::Look { from }))
        }
        _ => None,
    }
}

// A peer and the name of a request.
fn read_state(peers: u32, args: &[&[u8]]) -> Option<Line>
    ensures { result ≡ read_state peers (bytes_of args.now) }
{
    match args {
        [a, b] => {
            let peer = read_peer(peers, a)?;
            let name = read_name(b)?;
            Some(Line::StateOf(peer, name))
        }
        _ => None,
    }
}

// A line after the first, by its words.
fn read_later(alloc: Global, peers: u32, words: &[&[u8]]) -> Result<Option<Line>, NoMemory>
    ensures { IfOk result (λ found. found ≡ read_later peers (bytes_of words.now)) }
{
    let [word, args @ ..] = words else {
        return Ok(None);
    };
    if *word == b"give".as_slice() {
        return Ok(read_give(peers, args));
    }
    if *word == b"hand".as_slice() {
        return read_hand(alloc, peers, args);
    }
    if *word == b"settle".as_slice() {
        return Ok(one_peer(peers, args).map(|peer| Line::Local(peer, Step::Settle)));
    }
    if *word == b"look".as_slice() {
        return Ok(read_look(peers, args));
    }
    if *word == b"show".as_slice() {
        return Ok(one_peer(peers, args).map(|peer| Line::Local(peer, Step::Show)));
    }
    if *word == b"state".as_slice() {
        return Ok(read_state(peers, args));
    }
    read_local(alloc, peers, word, args)
}

fn one_count(args: &[&[u8]]) -> Option<u32>
    ensures { result ≡ one_count (bytes_of args.now) }
{
    match args {
        [a] => read_count(MAX_PEERS, a),
        _ => None,
    }
}

// The first line, by its words.
fn read_first(words: &[&[u8]]) -> Option<Line>
    ensures { result ≡ read_first (bytes_of words.now) }
{
    let [word, args @ ..] = words else {
        return None;
    };
    if *word == b"peers".as_slice() {
        return one_count(args).map(Line::Peers);
    }
    None
}

// What a line says by its words: the first one, or a later one.
fn line_of(alloc: Global, words: &[&[u8]], first: bool, peers: u32) -> Result<Line, LineFail>
    ensures reads { ReadsAs result (read_line first peers (bytes_of words.now)) }
    ensures opening { first ≡ true → IfOk result (λ line. IsTrue (is_opening line)) }
    ensures later { first ≡ false → IfOk result (λ line. IsTrue (is_world_line peers line)) }
{
    if first {
        let Some(line) = read_first(words) else {
            return Err(LineFail::Bad);
        };
        return Ok(line);
    }
    match read_later(alloc, peers, words) {
        Ok(Some(line)) => Ok(line),
        Ok(None) => Err(LineFail::Bad),
        Err(_) => Err(LineFail::NoMemory),
    }
}

// The same by the words of the line, however many they are. Of the grammar no line comes here.
#[cold]
#[inline(never)]
fn long_line(alloc: Global, bytes: &[u8], first: bool, peers: u32) -> Result<Line, LineFail>
    ensures reads { ReadsAs result (read_line first peers (words bytes.now)) }
    ensures opening { first ≡ true → IfOk result (λ line. IsTrue (is_opening line)) }
    ensures later { first ≡ false → IfOk result (λ line. IsTrue (is_world_line peers line)) }
{
    let Ok(words) = words_of(alloc, bytes) else {
        return Err(LineFail::NoMemory);
    };
    line_of(alloc, &words, first, peers)
}

/// What a line of a script says, for its bytes without the line end: the first one, or a later one in
/// a world of so many peers. Takes time in the number of bytes.
///
/// `Bad` says that they aren't in the grammar. A later line is one that such a world takes.
pub fn script_line(alloc: Global, bytes: &[u8], first: bool, peers: u32) -> Result<Line, LineFail>
    ensures ok { IfOk result (λ line. script_line first peers bytes.now ≡ Some line) }
    ensures bad { IsErrOf result LineFail.Bad → script_line first peers bytes.now ≡ None }

    // What follows for the world that the line is for.
    ensures opening { first ≡ true → IfOk result (λ line. IsTrue (is_opening line)) }
    ensures later { first ≡ false → IfOk result (λ line. IsTrue (is_world_line peers line)) }
{
    if !is_line(bytes) {
        return Err(LineFail::Bad);
    }
    let mut row = [&bytes[..0]; MOST_WORDS];
    match split_words(bytes, &mut row) {
        Some(count) => line_of(alloc, &row[..count], first, peers),
        None => long_line(alloc, bytes, first, peers),
    }
}
