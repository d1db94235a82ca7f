//! The lines of answers, by what a run keeps of them.
ghost use Rattle.std.specs.Prelude.{◌≡◌, ◌≢◌, ◌++◌, ◌∷◌, [], None, OnOk, decimal};
ghost use Rattle.line_spelling.specs.Values.{spaced};
ghost use Rattle.line_spelling.specs.Steps.{message_text};
ghost use Rattle.line_spelling.specs.Answers.{undone_words, answer_line};
ghost use Rattle.peer_step.specs.declared.answer.Answer.{Answer};
ghost use Rattle.peer_lock.specs.KeptAnswers.{kept_answer_of};
ghost use Rattle.report_run.specs.Kept.{kept_answer_words};

use element_name::NoMemory;
use line_spelling::LINE_END;
use line_write::{
    message_text, put, put_edit_answer, put_fault, put_missing, put_name_word, put_number_word,
    put_outcome, put_undone, put_with_fault, put_with_state,
};
use peer_lock::{BoxedMessage, KeptAnswer};
use request_state::Undone;
use std::alloc::Global;

// Appends a word and a message.
fn put_given(
    alloc: Global,
    line: &mut Vec<u8>,
    word: &[u8],
    message: &BoxedMessage,
) -> Result<(), NoMemory>
    ensures { OnOk result (line.new.items ≡ line.old.items ++ spaced (word.now ∷ message_text message.now ∷ [])) }
{
    let message = message.copied()?;
    put(line, word)?;
    put(line, b" ")?;
    message_text(alloc, &message, line)
}

// Appends a word, a version and how many requests were undone.
fn put_entered(
    line: &mut Vec<u8>,
    word: &[u8],
    version: u32,
    undone: Undone,
) -> Result<(), NoMemory>
    ensures { OnOk result (line.new.items ≡ line.old.items ++ spaced (word.now ∷ decimal version ∷ undone_words undone)) }
{
    put(line, word)?;
    put_number_word(line, u64::from(version))?;
    put_undone(line, undone)
}

// Appends what is kept of an answer, without a line end, but a text.
fn put_kept(alloc: Global, line: &mut Vec<u8>, answer: &KeptAnswer) -> Result<(), NoMemory>
    ensures { OnOk result (line.new.items ≡ line.old.items ++ spaced (kept_answer_words answer.now)) }
{
    match answer {
        KeptAnswer::Edit(told) => put_edit_answer(line, None, *told),
        KeptAnswer::NotAdministrator => put(line, b"not administrator"),
        KeptAnswer::LogFull => put(line, b"log full"),
        KeptAnswer::Refused(fault) => put_with_fault(line, b"refused", *fault),
        KeptAnswer::NotHere(missing) => {
            put(line, b"not here")?;
            put_missing(line, *missing)
        }
        KeptAnswer::NeedsNone => put(line, b"needs none"),
        KeptAnswer::AlreadyInvalid(state) => put_with_state(line, b"already", *state),
        KeptAnswer::NothingTentative => put(line, b"nothing tentative"),
        KeptAnswer::Issued(version, undone) => put_entered(line, b"entry", *version, *undone),
        KeptAnswer::Repeat => put(line, b"repeat"),
        KeptAnswer::Conflict(message) => put_given(alloc, line, b"conflict", message),
        KeptAnswer::OwnSite => put(line, b"own site"),
        KeptAnswer::OwnLog => put(line, b"own log"),
        KeptAnswer::Illegal(fault) => put_with_fault(line, b"illegal", *fault),
        KeptAnswer::HoldFull => put(line, b"hold full"),
        KeptAnswer::Held(missing) => {
            put(line, b"held")?;
            put_missing(line, *missing)
        }
        KeptAnswer::Taken(state) => put_with_state(line, b"taken", *state),
        KeptAnswer::Advanced(version, undone) => put_entered(line, b"version", *version, *undone),
        KeptAnswer::Quiet => put(line, b"quiet"),
        KeptAnswer::Dropped(version, fault) => {
            put(line, b"dropped")?;
            put_number_word(line, u64::from(*version))?;
            put_fault(line, *fault)
        }
        KeptAnswer::SettledRequest(id, outcome) => {
            put(line, b"settled")?;
            put_name_word(line, *id)?;
            put_outcome(line, *outcome)
        }
        KeptAnswer::SettledEntry(version, outcome) => {
            put(line, b"settled version")?;
            put_number_word(line, u64::from(*version))?;
            put_outcome(line, *outcome)
        }
        KeptAnswer::Item(message) => put_given(alloc, line, b"item", message),
        KeptAnswer::NoItem => put(line, b"no item"),
        KeptAnswer::Shown => Ok(()),
    }
}

/// Appends the line of an answer, by what is kept of it, which is no text. Takes time in the length of the line. Fails where
/// memory is wanting; a part may then stand in the output.
pub(crate) fn put_kept_answer(
    alloc: Global,
    answer: &KeptAnswer,
    out: &mut Vec<u8>,
) -> Result<(), NoMemory>
    requires { answer.now ≢ KeptAnswer.Shown }
    ensures { (a : Answer) → answer.now ≡ kept_answer_of a → OnOk result (out.new.items ≡ out.old.items ++ answer_line None a) }
{
    put_kept(alloc, out, answer)?;
    out.push(LINE_END)?;
    Ok(())
}
