//! The closing lines of a peer: the text that it shows, and what it holds.
ghost use Rattle.std.specs.Prelude.{◌≡◌, ◌++◌, flat_map, OnOk, OnErr};
ghost use Rattle.line_spelling.specs.Values.{behind_spaces};
ghost use Rattle.peer_core.specs.Peer.{text};
ghost use Rattle.peer_tables.specs.Derived.{finds_no_room};
ghost use Rattle.report_text.specs.Closing.{waiting_words, reason_words, waits_line, held_lines, closing_lines};

use coop_request::MAX_REQUESTS;
use edit_message::Message;
use element_name::NoMemory;
use line_write::{answer_line, put, put_missing, put_name_word, put_number_word};
use peer_core::Peer;
use peer_step::{Answer, Step};
use std::alloc::Global;

fn finds_no_room(peer: &Peer, message: &Message) -> bool
    ensures { result ≡ finds_no_room peer.now.journal message.now }
{
    match message {
        Message::Coop(_) => (peer.journal_len() - peer.front()) as usize >= MAX_REQUESTS,
        Message::Admin(_) => false,
    }
}

// Appends what waits, each word behind a space.
fn put_waiting(line: &mut Vec<u8>, message: &Message) -> Result<(), NoMemory>
    ensures { OnOk result (line.new.items ≡ line.old.items ++ behind_spaces (waiting_words message.now)) }
{
    match message {
        Message::Coop(request) => {
            put(line, b" request")?;
            put_name_word(line, request.id())
        }
        Message::Admin(entry) => {
            put(line, b" entry")?;
            put_number_word(line, u64::from(entry.version()))
        }
    }
}

// Appends what a message waits for, each word behind a space.
fn put_reason(line: &mut Vec<u8>, peer: &Peer, message: &Message) -> Result<(), NoMemory>
    ensures { OnOk result (line.new.items ≡ line.old.items ++ behind_spaces (reason_words peer.now message.now)) }
{
    if let Some(missing) = peer.missing(message) {
        return put_missing(line, missing);
    }
    if finds_no_room(peer, message) {
        return put(line, b" room");
    }
    put(line, b" settle")
}

// Appends the line of a held message.
fn put_waits(line: &mut Vec<u8>, peer: &Peer, message: &Message) -> Result<(), NoMemory>
    ensures { OnOk result (line.new.items ≡ line.old.items ++ waits_line peer.now message.now) }
{
    put(line, b"waits")?;
    put_waiting(line, message)?;
    put(line, b" for")?;
    put_reason(line, peer, message)?;
    put(line, b"\n")
}

// Appends the line of each held message.
fn put_each(lines: &mut Vec<u8>, peer: &Peer) -> Result<(), NoMemory>
    ensures { OnOk result (lines.new.items ≡ lines.old.items ++ flat_map (waits_line peer.now) peer.now.held) }
{
    for i in 0..peer.held_len() {
        let Some(message) = peer.held(i) else {
            unreachable!()
        };
        put_waits(lines, peer, message)?;
    }
    Ok(())
}

/// Appends how many messages a peer holds, and what each waits for, in order of arrival. Takes time in the number of
/// held messages, and for each time logarithmic in the number of elements.
pub fn held_lines(alloc: Global, peer: &Peer, out: &mut Vec<u8>) -> Result<(), NoMemory>
    ensures ok { OnOk result (out.new.items ≡ out.old.items ++ held_lines peer.now) }
    ensures unchanged { OnErr result (out.new.items ≡ out.old.items) }
{
    let mut lines = Vec::new(alloc);
    put(&mut lines, b"held")?;
    put_number_word(&mut lines, u64::from(peer.held_len()))?;
    put(&mut lines, b"\n")?;
    put_each(&mut lines, peer)?;
    out.extend_from_slice(&lines)?;
    Ok(())
}

/// Appends the closing lines of a peer that was asked for its text and has answered so. Takes the time of writing the
/// text, and that of [`held_lines`]. After a failure a part of them may be there.
pub fn closing_lines(
    alloc: Global,
    shown: &Answer,
    peer: &Peer,
    out: &mut Vec<u8>,
) -> Result<(), NoMemory>
    requires { shown.now ≡ Answer.Shown (text peer.now) }
    ensures { OnOk result (out.new.items ≡ out.old.items ++ closing_lines peer.now) }
{
    answer_line(alloc, None, shown, out)?;
    held_lines(alloc, peer, out)
}

/// Asks a peer for its text, which leaves the peer as it is, and appends its closing lines, as [`closing_lines`] does.
pub fn closing_lines_of(alloc: Global, peer: &mut Peer, out: &mut Vec<u8>) -> Result<(), NoMemory>
    ensures lines { OnOk result (out.new.items ≡ out.old.items ++ closing_lines peer.old) }
    ensures stays { OnOk result (peer.new ≡ peer.old) }
{
    let answer = peer.step(Step::Show)?;
    let told = closing_lines(alloc, &answer, peer, out);
    drop(answer);
    told
}
