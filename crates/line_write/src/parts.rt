//! The parts of answers.
ghost use Rattle.std.specs.Prelude.{◌≡◌, ◌++◌, OnOk};
ghost use Rattle.line_spelling.specs.Values.{behind_spaces};
ghost use Rattle.line_spelling.specs.Answers.{by_words, state_words, missing_words, fault_words, number_words, undone_words};
ghost use Rattle.line_spelling.specs.Answers.{settled_words, outcome_words, shown_words};

use crate::values::{put, put_name_word, put_number_word, put_numbered, put_text};
use edit_message::{Message, Missing};
use element_name::NoMemory;
use peer_step::Outcome;
use policy_book::EntryFault;
use request_state::{State, Undone};

// Each of these appends words, each behind a space.

/// By which authorization something is denied.
pub(crate) fn put_by(line: &mut Vec<u8>, by: Option<u32>) -> Result<(), NoMemory>
    ensures { OnOk result (line.new.items ≡ line.old.items ++ behind_spaces (by_words by)) }
{
    match by {
        Some(number) => put_numbered(line, b"by", number),
        None => put(line, b" none"),
    }
}

/// Appends the words of a state, each behind a space. Takes time in their length. Fails where memory is wanting; a part
/// may then stand in the line.
pub fn put_state(line: &mut Vec<u8>, state: State) -> Result<(), NoMemory>
    ensures { OnOk result (line.new.items ≡ line.old.items ++ behind_spaces (state_words state)) }
{
    match state {
        State::Tentative => put(line, b" tentative"),
        State::Valid { at } => put_numbered(line, b"valid", at),
        State::Invalid { at, by } => {
            put_numbered(line, b"invalid", at)?;
            put_by(line, by)
        }
    }
}

/// Appends the words of what is missing, each behind a space. Takes time in their length. Fails where memory is wanting;
/// a part may then stand in the line.
pub fn put_missing(line: &mut Vec<u8>, missing: Missing) -> Result<(), NoMemory>
    ensures { OnOk result (line.new.items ≡ line.old.items ++ behind_spaces (missing_words missing)) }
{
    match missing {
        Missing::Element(name) => {
            put(line, b" element")?;
            put_name_word(line, name)
        }
        Missing::Version(version) => put_numbered(line, b"version", version),
    }
}

/// Appends the words of a fault, each behind a space. Takes time in their length. Fails where memory is wanting; a part may
/// then stand in the line.
pub fn put_fault(line: &mut Vec<u8>, fault: EntryFault) -> Result<(), NoMemory>
    ensures { OnOk result (line.new.items ≡ line.old.items ++ behind_spaces (fault_words fault)) }
{
    match fault {
        EntryFault::UserThere => put(line, b" 1"),
        EntryFault::NoUser => put(line, b" 2"),
        EntryFault::IsAdministrator => put(line, b" 3"),
        EntryFault::ObjectThere => put(line, b" 4"),
        EntryFault::NoObject => put(line, b" 5"),
        EntryFault::BadPlace(len) => put_numbered(line, b"6", len),
        EntryFault::TooMany(limit) => put_numbered(line, b"7", limit),
        EntryFault::ValidatedAt(version) => put_numbered(line, b"8", version),
        EntryFault::GroupThere => put(line, b" 9"),
        EntryFault::NoGroup => put(line, b" 10"),
        EntryFault::MemberThere => put(line, b" 11"),
        EntryFault::NoMember => put(line, b" 12"),
    }
}

/// The number of an issued message, where it is told.
pub(crate) fn put_told(line: &mut Vec<u8>, number: Option<u32>) -> Result<(), NoMemory>
    ensures { OnOk result (line.new.items ≡ line.old.items ++ behind_spaces (number_words number)) }
{
    match number {
        Some(number) => put_number_word(line, u64::from(number)),
        None => Ok(()),
    }
}

/// Appends how many requests were undone, in words behind a space each. Takes time in their length. Fails where memory is
/// wanting; a part may then stand in the line.
pub fn put_undone(line: &mut Vec<u8>, undone: Undone) -> Result<(), NoMemory>
    ensures { OnOk result (line.new.items ≡ line.old.items ++ behind_spaces (undone_words undone)) }
{
    put_numbered(line, b"undone", undone.count)
}

/// What was settled.
pub(crate) fn put_settled(line: &mut Vec<u8>, message: &Message) -> Result<(), NoMemory>
    ensures { OnOk result (line.new.items ≡ line.old.items ++ behind_spaces (settled_words message.now)) }
{
    match message {
        Message::Coop(request) => put_name_word(line, request.id()),
        Message::Admin(entry) => put_numbered(line, b"version", entry.version()),
    }
}

/// Appends what became of a held message, in words behind a space each. Takes time in their length. Fails where memory is
/// wanting; a part may then stand in the line.
pub fn put_outcome(line: &mut Vec<u8>, outcome: Outcome) -> Result<(), NoMemory>
    ensures { OnOk result (line.new.items ≡ line.old.items ++ behind_spaces (outcome_words outcome)) }
{
    match outcome {
        Outcome::Taken(state) => put_state(line, state),
        Outcome::Advanced(undone) => put_undone(line, undone),
    }
}

/// Appends a space and a text, unless the text is empty. Takes time in its bytes. Fails where memory is wanting; a
/// part may then stand in the line.
pub fn put_shown(line: &mut Vec<u8>, text: &[u8]) -> Result<(), NoMemory>
    ensures { OnOk result (line.new.items ≡ line.old.items ++ behind_spaces (shown_words text.now)) }
{
    if text.is_empty() {
        return Ok(());
    }
    put(line, b" ")?;
    put_text(line, text)
}
