//! The lines that a program reads.
ghost use Rattle.std.specs.Prelude.{◌≡◌, ◌++◌, OnOk, None};
ghost use Rattle.line_spelling.specs.Answers.{answer_line};
ghost use Rattle.follow_talk.specs.OutputRows.{changed_line, whole_line, replaced_line, stopped_line, lost_line, undone_line, entry_line, rules_line};

use edit_message::Message;
use element_name::NoMemory;
use follow_text::TextRow;
use line_write::{answer_line, message_text, put, put_number_word, put_shown};
use peer_step::Answer;
use std::alloc::Global;

// Each of these appends a line. It fails where memory is wanting; a part may then stand there.

/// The line of an answer.
pub(crate) fn put_answer(alloc: Global, out: &mut Vec<u8>, answer: &Answer) -> Result<(), NoMemory>
    ensures { OnOk result (out.new.items ≡ out.old.items ++ answer_line None answer.now) }
{
    answer_line(alloc, None, answer, out)
}

/// `changed AT OUT TEXT`, in letters; without TEXT where nothing is put in.
pub(crate) fn put_changed(out: &mut Vec<u8>, row: &TextRow) -> Result<(), NoMemory>
    ensures { OnOk result (out.new.items ≡ out.old.items ++ changed_line row.now) }
{
    put(out, b"changed")?;
    put_number_word(out, row.letters_before as u64)?;
    put_number_word(out, row.letters_out as u64)?;
    put_shown(out, &row.put)?;
    put(out, b"\n")
}

/// `text TEXT`, or `text` alone where it is empty.
pub(crate) fn put_whole(out: &mut Vec<u8>, text: &[u8]) -> Result<(), NoMemory>
    ensures { OnOk result (out.new.items ≡ out.old.items ++ whole_line text.now) }
{
    put(out, b"text")?;
    put_shown(out, text)?;
    put(out, b"\n")
}

/// `replaced COUNT`: so many edits were made, and all of them.
pub(crate) fn put_replaced(out: &mut Vec<u8>, count: u64) -> Result<(), NoMemory>
    ensures { OnOk result (out.new.items ≡ out.old.items ++ replaced_line count) }
{
    put(out, b"replaced")?;
    put_number_word(out, count)?;
    put(out, b"\n")
}

/// `replaced COUNT but ANSWER`: so many edits were made, and the next one was answered by this line.
pub(crate) fn put_stopped(out: &mut Vec<u8>, count: u64, answer: &[u8]) -> Result<(), NoMemory>
    ensures { OnOk result (out.new.items ≡ out.old.items ++ stopped_line count answer.now) }
{
    put(out, b"replaced")?;
    put_number_word(out, count)?;
    put(out, b" but ")?;
    put(out, answer)
}

/// `lost ANSWER`: what the host has is answered so.
pub(crate) fn put_lost(alloc: Global, out: &mut Vec<u8>, answer: &Answer) -> Result<(), NoMemory>
    ensures { OnOk result (out.new.items ≡ out.old.items ++ lost_line answer.now) }
{
    put(out, b"lost ")?;
    answer_line(alloc, None, answer, out)
}

/// `undone COUNT ROWS`: so many edits were undone, which changes the text in so many rows.
pub(crate) fn put_undone(out: &mut Vec<u8>, count: u32, rows: u64) -> Result<(), NoMemory>
    ensures { OnOk result (out.new.items ≡ out.old.items ++ undone_line count rows) }
{
    put(out, b"undone")?;
    put_number_word(out, u64::from(count))?;
    put_number_word(out, rows)?;
    put(out, b"\n")
}

/// `entry VERSION OP`, of a message that is an entry of the administrator's log; nothing of a request.
pub(crate) fn put_entry(alloc: Global, out: &mut Vec<u8>, message: &Message) -> Result<(), NoMemory>
    ensures { OnOk result (out.new.items ≡ out.old.items ++ entry_line message.now) }
{
    match message {
        Message::Coop(_) => Ok(()),
        Message::Admin(_) => {
            message_text(alloc, message, out)?;
            put(out, b"\n")
        }
    }
}

/// `rules VERSION`: all entries up to this version were said.
pub(crate) fn put_rules(out: &mut Vec<u8>, version: u32) -> Result<(), NoMemory>
    ensures { OnOk result (out.new.items ≡ out.old.items ++ rules_line version) }
{
    put(out, b"rules")?;
    put_number_word(out, u64::from(version))?;
    put(out, b"\n")
}
