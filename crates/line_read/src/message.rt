//! Messages, by the words that they are written in.
ghost use Rattle.std.specs.Prelude.{◌≡◌, IfOk};
ghost use Rattle.element_name.specs.Cases.{when};
ghost use Rattle.policy_book.specs.Entry.{is_entry_version};
ghost use Rattle.line_read.specs.Words.{bytes_of};
ghost use Rattle.line_read.specs.ReadsAs.{ReadsAs};
ghost use Rattle.line_read.specs.Message.{name_and_piece, read_edit, accepted, read_request, read_entry, read_message};

use crate::fail::without_bad;
use crate::numbers::{one_name, read_name, read_up_to};
use crate::operation::operation_of;
use crate::pieces::read_piece;
use crate::words::both_words;
use coop_request::{Edit, Piece, Request};
use edit_message::Message;
use element_name::{MAX_VERSION, Name, NoMemory};
use line_spelling::LineFail;
use policy_book::{AdminOp, Entry};
use std::alloc::Global;

fn name_and_piece(alloc: Global, args: &[&[u8]]) -> Result<(Name, Piece), LineFail>
    ensures { ReadsAs result (name_and_piece (bytes_of args.now)) }
{
    let (name, piece) = both_words(args)?;
    let name = read_name(name).ok_or(LineFail::Bad)?;
    Ok((name, read_piece(alloc, piece)?))
}

// The edit of a request, by its first word and the others.
#[tactic(auto, unfolding(crate::specs::Message::read_edit))]
fn read_edit(alloc: Global, word: &[u8], args: &[&[u8]]) -> Result<Edit, LineFail>
    ensures { ReadsAs result (read_edit word.now (bytes_of args.now)) }
{
    if word == b"insert".as_slice() {
        let (after, letter) = name_and_piece(alloc, args)?;
        return Ok(Edit::Insert { after, letter });
    }
    if word == b"delete".as_slice() {
        let target = one_name(args)?;
        return Ok(Edit::Delete { target });
    }
    if word == b"update".as_slice() {
        let (target, letter) = name_and_piece(alloc, args)?;
        return Ok(Edit::Update { target, letter });
    }
    Err(LineFail::Bad)
}

// The message of a request that is accepted.
fn accepted(id: Name, version: u32, edit: Edit) -> Result<Message, LineFail>
    ensures { ReadsAs result (accepted (record { id = id; version = version; edit = edit })) }
{
    match Request::checked(id, version, edit) {
        Ok(request) => Ok(Message::Coop(request)),
        Err(_) => Err(LineFail::Bad),
    }
}

// A name, a version and an edit.
#[tactic(auto, unfolding(crate::specs::Message::read_request))]
fn read_request(alloc: Global, args: &[&[u8]]) -> Result<Message, LineFail>
    ensures { ReadsAs result (read_request (bytes_of args.now)) }
{
    let [name, number, word, args @ ..] = args else {
        return Err(LineFail::Bad);
    };
    let id = read_name(name).ok_or(LineFail::Bad)?;
    let version = read_up_to(MAX_VERSION, number).ok_or(LineFail::Bad)?;
    let edit = read_edit(alloc, word, args)?;
    accepted(id, version, edit)
}

// The message of an entry of this version, if one can make it.
fn entry(version: u32, op: AdminOp) -> Result<Message, LineFail>
    ensures { ReadsAs result (when (is_entry_version version) (Message.Admin (record { version = version; op = op }))) }
{
    let entry = Entry::checked(version, op).ok_or(LineFail::Bad)?;
    Ok(Message::Admin(entry))
}

// A version and an operation.
#[tactic(auto, unfolding(crate::specs::Message::read_entry))]
fn read_entry(alloc: Global, args: &[&[u8]]) -> Result<Message, LineFail>
    ensures { ReadsAs result (read_entry (bytes_of args.now)) }
{
    let [number, words @ ..] = args else {
        return Err(LineFail::Bad);
    };
    let version = read_up_to(MAX_VERSION, number).ok_or(LineFail::Bad)?;
    let op = operation_of(alloc, words)?;
    entry(version, op)
}

/// The message that the words spell.
#[tactic(auto, unfolding(crate::specs::Message::read_message))]
pub(crate) fn message_of(alloc: Global, words: &[&[u8]]) -> Result<Message, LineFail>
    ensures { ReadsAs result (read_message (bytes_of words.now)) }
{
    let [word, args @ ..] = words else {
        return Err(LineFail::Bad);
    };
    if *word == b"request".as_slice() {
        return read_request(alloc, args);
    }
    if *word == b"entry".as_slice() {
        return read_entry(alloc, args);
    }
    Err(LineFail::Bad)
}

/// A message by its words. Takes time and memory in their length.
pub fn read_message(alloc: Global, words: &[&[u8]]) -> Result<Option<Message>, NoMemory>
    ensures { IfOk result (λ found. found ≡ read_message (bytes_of words.now)) }
{
    without_bad(message_of(alloc, words))
}
