//! Steps from bodies.
ghost use Rattle.std.specs.Prelude.{◌≡◌, option_map, IfOk};
ghost use Rattle.edit_frame.specs.Reading.{framed_message};
ghost use Rattle.peer_step.specs.declared.step.Step.{Step};
ghost use Rattle.peer_step.specs.Lent.{local_edit_lent};
ghost use Rattle.peer_store.specs.Reading.{whole_place, placed_piece_in, insert_in, delete_in, update_in, operation_of_entry, alone_in};

use coop_request::LentPiece;
use edit_frame::{DecodeFail, Frame, decode};
use edit_message::Message;
use element_name::NoMemory;
use peer_step::{LentLocalEdit, Step};
use std::alloc::Global;

// The place that is all of the fields.
fn place_of(fields: &[u8]) -> Option<u32>
    ensures { result ≡ whole_place fields.now }
{
    match fields {
        [a, b, c, d] => Some(u32::from_be_bytes([*a, *b, *c, *d])),
        _ => None,
    }
}

// The place, and the piece behind its length, that are all of the fields.
fn placed_piece_of(fields: &[u8]) -> Option<(u32, LentPiece<'_>)>
    ensures { result ≡ placed_piece_in fields.now }
{
    let [a, b, c, d, len, rest @ ..] = fields else {
        return None;
    };
    if rest.len() != *len as usize {
        return None;
    }
    let piece = LentPiece::checked(rest)?;
    Some((u32::from_be_bytes([*a, *b, *c, *d]), piece))
}

/// The edit that puts a piece in, whose fields these are; none where they are those of none.
pub(crate) fn insert_of(fields: &[u8]) -> Option<LentLocalEdit<'_>>
    ensures { option_map (λ e. Step.Edit (local_edit_lent e)) result ≡ insert_in fields.now }
{
    let (at, letter) = placed_piece_of(fields)?;
    Some(LentLocalEdit::Insert { at, letter })
}

/// The same of one that takes a piece out.
pub(crate) fn delete_of(fields: &[u8]) -> Option<LentLocalEdit<'_>>
    ensures { option_map (λ e. Step.Edit (local_edit_lent e)) result ≡ delete_in fields.now }
{
    let at = place_of(fields)?;
    Some(LentLocalEdit::Delete { at })
}

/// The same of one that changes a piece.
pub(crate) fn update_of(fields: &[u8]) -> Option<LentLocalEdit<'_>>
    ensures { option_map (λ e. Step.Edit (local_edit_lent e)) result ≡ update_in fields.now }
{
    let (at, letter) = placed_piece_of(fields)?;
    Some(LentLocalEdit::Update { at, letter })
}

// The message whose frame is all of the fields.
fn message_of(alloc: Global, fields: &[u8]) -> Result<Option<Message>, NoMemory>
    ensures { IfOk result (λ message. message ≡ framed_message fields.now) }
{
    match decode(alloc, fields) {
        Ok(Frame::Item(message)) => Ok(Some(message)),
        Ok(_) | Err(DecodeFail::Fault(_)) => Ok(None),
        Err(DecodeFail::NoMemory) => Err(NoMemory),
    }
}

/// The operation of the entry whose frame is all of the fields, if it makes this version. One with lists takes memory.
pub(crate) fn operation_of(
    alloc: Global,
    version: u32,
    fields: &[u8],
) -> Result<Option<Step>, NoMemory>
    ensures { IfOk result (λ step. step ≡ operation_of_entry version (framed_message fields.now)) }
{
    match message_of(alloc, fields)? {
        Some(Message::Admin(entry)) if entry.version() == version => {
            Ok(Some(Step::Administer(entry.op().copied()?)))
        }
        _ => Ok(None),
    }
}

/// The step, where it has no fields.
pub(crate) fn alone(fields: &[u8], step: Step) -> Option<Step>
    ensures { result ≡ alone_in fields.now step }
{
    match fields {
        [] => Some(step),
        _ => None,
    }
}
