//! The lines of answers.
ghost use Rattle.std.specs.Prelude.{◌≡◌, ◌++◌, ◌∷◌, Some, None, OnOk, OnErr};
ghost use Rattle.peer_step.specs.declared.answer.Answer.{Answer};
ghost use Rattle.peer_step.specs.Lent.{edit_answer_of, answer_told};
ghost use Rattle.line_spelling.specs.Values.{spaced};
ghost use Rattle.line_spelling.specs.Answers.{fault_words, state_words, item_words, answer_words, edit_answer_words, request_answer_words, answer_line};

use crate::parts::{
    put_by, put_fault, put_missing, put_outcome, put_settled, put_shown, put_state, put_told,
    put_undone,
};
use crate::steps::put_message;
use crate::values::{put, put_name_word, put_number_word};
use edit_message::Message;
use element_name::{Name, NoMemory};
use line_spelling::LINE_END;
use peer_step::{Answer, EditAnswer, RequestAnswer};
use policy_book::{Entry, EntryFault};
use request_state::{State, Undone};
use std::alloc::Global;

fn put_done(line: &mut Vec<u8>, number: Option<u32>, id: Name, version: u32) -> Result<(), NoMemory>
    ensures { OnOk result (line.new.items ≡ line.old.items ++ spaced (edit_answer_words number (EditAnswer.Done id version))) }
{
    put(line, b"done")?;
    put_told(line, number)?;
    put_name_word(line, id)?;
    put_number_word(line, u64::from(version))
}

/// Appends the words of an answer to an own edit, without a line end, as [`put_edit_answer_line`] does.
pub fn put_edit_answer(
    line: &mut Vec<u8>,
    number: Option<u32>,
    told: EditAnswer,
) -> Result<(), NoMemory>
    ensures { OnOk result (line.new.items ≡ line.old.items ++ spaced (edit_answer_words number told)) }
{
    match told {
        EditAnswer::BadPlace(len) => {
            put(line, b"no place")?;
            put_number_word(line, u64::from(len))
        }
        EditAnswer::ClockEnd => put(line, b"clock end"),
        EditAnswer::HistoryFull => put(line, b"history full"),
        EditAnswer::Denied { version, by } => {
            put(line, b"denied")?;
            put_number_word(line, u64::from(version))?;
            put_by(line, by)
        }
        EditAnswer::Done { id, version } => put_done(line, number, id, version),
    }
}

fn put_issued(
    line: &mut Vec<u8>,
    number: Option<u32>,
    entry: &Entry,
    undone: Undone,
) -> Result<(), NoMemory>
    ensures { OnOk result (line.new.items ≡ line.old.items ++ spaced (answer_words number (Answer.Issued entry.now undone))) }
{
    put(line, b"entry")?;
    put_told(line, number)?;
    put_number_word(line, u64::from(entry.version()))?;
    put_undone(line, undone)
}

fn put_item(line: &mut Vec<u8>, item: &Option<Message>) -> Result<(), NoMemory>
    ensures { OnOk result (line.new.items ≡ line.old.items ++ spaced (item_words item.now)) }
{
    match item {
        Some(message) => {
            put(line, b"item ")?;
            put_message(line, message)
        }
        None => put(line, b"no item"),
    }
}

/// Appends a word and those of a fault. Takes time in their length. Fails where memory is wanting; a part may then stand in
/// the line.
pub fn put_with_fault(line: &mut Vec<u8>, word: &[u8], fault: EntryFault) -> Result<(), NoMemory>
    ensures { OnOk result (line.new.items ≡ line.old.items ++ spaced (word.now ∷ fault_words fault)) }
{
    put(line, word)?;
    put_fault(line, fault)
}

/// Appends a word and those of a state. Takes time in their length. Fails where memory is wanting; a part may then stand in
/// the line.
pub fn put_with_state(line: &mut Vec<u8>, word: &[u8], state: State) -> Result<(), NoMemory>
    ensures { OnOk result (line.new.items ≡ line.old.items ++ spaced (word.now ∷ state_words state)) }
{
    put(line, word)?;
    put_state(line, state)
}

// Appends the words of an answer to a request that comes, without a line end, as `put_request_answer_line` does.
fn put_request_answer(line: &mut Vec<u8>, told: RequestAnswer) -> Result<(), NoMemory>
    ensures { OnOk result (line.new.items ≡ line.old.items ++ spaced (request_answer_words told)) }
{
    match told {
        RequestAnswer::Repeat => put(line, b"repeat"),
        RequestAnswer::OwnSite => put(line, b"own site"),
        RequestAnswer::HistoryFull => put(line, b"history full"),
        RequestAnswer::HoldFull => put(line, b"hold full"),
        RequestAnswer::Held(missing) => {
            put(line, b"held")?;
            put_missing(line, missing)
        }
        RequestAnswer::Taken(state) => put_with_state(line, b"taken", state),
    }
}

// Appends an answer, without a line end.
fn put_answer(line: &mut Vec<u8>, number: Option<u32>, answer: &Answer) -> Result<(), NoMemory>
    ensures { OnOk result (line.new.items ≡ line.old.items ++ spaced (answer_words number answer.now)) }
{
    match answer {
        Answer::BadPlace(len) => put_edit_answer(line, number, EditAnswer::BadPlace(*len)),
        Answer::ClockEnd => put_edit_answer(line, number, EditAnswer::ClockEnd),
        Answer::HistoryFull => put_edit_answer(line, number, EditAnswer::HistoryFull),
        Answer::Denied { version, by } => {
            let (version, by) = (*version, *by);
            put_edit_answer(line, number, EditAnswer::Denied { version, by })
        }
        Answer::Done(request) => put_done(line, number, request.id(), request.version()),
        Answer::NotAdministrator => put(line, b"not administrator"),
        Answer::LogFull => put(line, b"log full"),
        Answer::Refused(fault) => put_with_fault(line, b"refused", *fault),
        Answer::NotHere(missing) => {
            put(line, b"not here")?;
            put_missing(line, *missing)
        }
        Answer::NeedsNone => put(line, b"needs none"),
        Answer::AlreadyInvalid(state) => put_with_state(line, b"already", *state),
        Answer::NothingTentative => put(line, b"nothing tentative"),
        Answer::Issued(entry, undone) => put_issued(line, number, entry, *undone),
        Answer::Repeat => put_request_answer(line, RequestAnswer::Repeat),
        Answer::Conflict(kept) => {
            put(line, b"conflict ")?;
            put_message(line, kept)
        }
        Answer::OwnSite => put_request_answer(line, RequestAnswer::OwnSite),
        Answer::OwnLog => put(line, b"own log"),
        Answer::Illegal(fault) => put_with_fault(line, b"illegal", *fault),
        Answer::HoldFull => put_request_answer(line, RequestAnswer::HoldFull),
        Answer::Held(missing) => put_request_answer(line, RequestAnswer::Held(*missing)),
        Answer::Taken(state) => put_request_answer(line, RequestAnswer::Taken(*state)),
        Answer::Advanced(entry, undone) => {
            put(line, b"version")?;
            put_number_word(line, u64::from(entry.version()))?;
            put_undone(line, *undone)
        }
        Answer::Quiet => put(line, b"quiet"),
        Answer::Dropped(entry, fault) => {
            put(line, b"dropped")?;
            put_number_word(line, u64::from(entry.version()))?;
            put_fault(line, *fault)
        }
        Answer::Settled(message, outcome) => {
            put(line, b"settled")?;
            put_settled(line, message)?;
            put_outcome(line, *outcome)
        }
        Answer::Item(item) => put_item(line, item),
        Answer::Shown(text) => {
            put(line, b"show")?;
            put_shown(line, text.as_str().as_bytes())
        }
    }
}

/// Appends the line of an answer, with the number of the message that it issues where that is told.
/// Takes time in the length of the line. Fails where memory is wanting; a part may then stand in the output.
pub fn put_answer_line(
    out: &mut Vec<u8>,
    number: Option<u32>,
    answer: &Answer,
) -> Result<(), NoMemory>
    ensures { OnOk result (out.new.items ≡ out.old.items ++ answer_line number answer.now) }
{
    put_answer(out, number, answer)?;
    out.push(LINE_END)?;
    Ok(())
}

/// Appends the line of an answer as [`put_answer_line`] does, or nothing where memory is wanting: the line is built apart.
pub fn answer_line(
    alloc: Global,
    number: Option<u32>,
    answer: &Answer,
    out: &mut Vec<u8>,
) -> Result<(), NoMemory>
    ensures ok { OnOk result (out.new.items ≡ out.old.items ++ answer_line number answer.now) }
    ensures unchanged { OnErr result (out.new.items ≡ out.old.items) }
{
    let mut line = Vec::new(alloc);
    put_answer_line(&mut line, number, answer)?;
    out.extend_from_slice(&line)?;
    Ok(())
}

/// Appends the line of an answer to an own edit, by what is told of it, with the number of the message that it issues where
/// that is told. Takes time in the length of the line. Fails where memory is wanting; a part may then stand in the output.
pub fn put_edit_answer_line(
    out: &mut Vec<u8>,
    number: Option<u32>,
    told: EditAnswer,
) -> Result<(), NoMemory>
    ensures { (answer : Answer) → edit_answer_of answer ≡ Some told → OnOk result (out.new.items ≡ out.old.items ++ answer_line number answer) }
{
    put_edit_answer(out, number, told)?;
    out.push(LINE_END)?;
    Ok(())
}

/// Appends the line of an answer to a request that comes, by what is told of it. Takes time in the length of the line. Fails
/// where memory is wanting; a part may then stand in the output.
pub fn put_request_answer_line(out: &mut Vec<u8>, told: RequestAnswer) -> Result<(), NoMemory>
    ensures { OnOk result (out.new.items ≡ out.old.items ++ answer_line None (answer_told told)) }
{
    put_request_answer(out, told)?;
    out.push(LINE_END)?;
    Ok(())
}
