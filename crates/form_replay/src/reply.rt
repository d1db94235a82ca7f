//! The lines of replies.
ghost use Rattle.std.specs.Prelude.{◌≡◌, ◌++◌, OnOk, OnErr};
ghost use Rattle.line_spelling.specs.Values.{behind_spaces};
ghost use Rattle.form_replay.specs.Reply.{kept_words, reply_line};

use element_name::NoMemory;
use line_write::{put, put_answer_line, put_number_word, put_state};
use replay_net::Reply;
use request_state::State;
use std::alloc::Global;

// Appends the words of a state that is kept, each behind a space.
fn put_kept(line: &mut Vec<u8>, state: Option<State>) -> Result<(), NoMemory>
    ensures { OnOk result (line.new.items ≡ line.old.items ++ behind_spaces (kept_words state)) }
{
    match state {
        Some(state) => put_state(line, state),
        None => put(line, b" unknown"),
    }
}

// Appends the line of a number of messages that were issued.
fn put_no_message(line: &mut Vec<u8>, count: u32) -> Result<(), NoMemory>
    ensures { OnOk result (line.new.items ≡ line.old.items ++ reply_line (Reply.NoMessage count)) }
{
    put(line, b"no message")?;
    put_number_word(line, u64::from(count))?;
    put(line, b"\n")
}

// Appends the line of a state that is kept.
fn put_state_line(line: &mut Vec<u8>, state: Option<State>) -> Result<(), NoMemory>
    ensures { OnOk result (line.new.items ≡ line.old.items ++ reply_line (Reply.StateIs state)) }
{
    put(line, b"state")?;
    put_kept(line, state)?;
    put(line, b"\n")
}

/// Appends the line of a reply. Takes time in the length of the line. Fails where memory is wanting; a part may then stand
/// in the output.
pub(crate) fn put_reply(out: &mut Vec<u8>, reply: &Reply) -> Result<(), NoMemory>
    ensures { OnOk result (out.new.items ≡ out.old.items ++ reply_line reply.now) }
{
    match reply {
        Reply::Answered { number, answer } => put_answer_line(out, *number, answer),
        Reply::NoMessage(count) => put_no_message(out, *count),
        Reply::StateIs(state) => put_state_line(out, *state),
    }
}

/// Appends the line of a reply, or nothing where memory is wanting. Takes time in the length of the line.
pub fn reply_line(alloc: Global, reply: &Reply, out: &mut Vec<u8>) -> Result<(), NoMemory>
    ensures ok { OnOk result (out.new.items ≡ out.old.items ++ reply_line reply.now) }
    ensures unchanged { OnErr result (out.new.items ≡ out.old.items) }
{
    let mut line = Vec::new(alloc);
    put_reply(&mut line, reply)?;
    out.extend_from_slice(&line)?;
    Ok(())
}
