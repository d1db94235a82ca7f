//! Bodies from steps.
ghost use Rattle.std.specs.Prelude.{◌≡◌, ◌<◌, ◌^◌, ◌++◌, ◌∷◌, [], ℕ, IfOk, IfSome, length, is_none, true, IsTrue};
ghost use Rattle.std.specs.Int.{w32, to_be_bytes};
ghost use Rattle.coop_request.specs.Piece.{is_piece};
ghost use Rattle.peer_step.specs.declared.step.Step.{Step};
ghost use Rattle.edit_frame.specs.Spelling.{spelling};
ghost use Rattle.edit_frame.specs.Spells.{is_frame};
ghost use Rattle.peer_store.specs.Body.{IsBody, has_no_body};

use super::kinds::{ADMINISTER, DELETE, INSERT, RECEIVE, SETTLE, UPDATE, VALIDATE_NEXT};
use coop_request::Piece;
use edit_frame::{Frame, encode};
use edit_message::Message;
use element_name::NoMemory;
use peer_step::{LocalEdit, Step};
use policy_book::{AdminOp, Entry};
use std::alloc::{AllocError, Global};

// A kind with no fields.
fn kind_alone(alloc: Global, kind: u8) -> Result<Vec<u8>, AllocError>
    ensures { IfOk result (λ body. body.items ≡ kind ∷ []) }
{
    let mut body = Vec::new(alloc);
    body.push(kind)?;
    Ok(body)
}

// A kind and a place.
fn placed(alloc: Global, kind: u8, at: u32) -> Result<Vec<u8>, AllocError>
    ensures body { IfOk result (λ body. body.items ≡ kind ∷ to_be_bytes w32 at) }
    ensures place { at < 2 ^ 32 }
{
    let mut body = kind_alone(alloc, kind)?;
    body.extend_from_slice(&at.to_be_bytes())?;
    Ok(body)
}

// A kind, a place, and a piece behind its length.
fn placed_piece(alloc: Global, kind: u8, at: u32, piece: &Piece) -> Result<Vec<u8>, AllocError>
    ensures body { IfOk result (λ body. body.items ≡ kind ∷ to_be_bytes w32 at ++ length piece.now ∷ piece.now) }
    ensures place { at < 2 ^ 32 }
    ensures piece { IsTrue (is_piece piece.now) }
{
    let bytes = piece.bytes();
    let mut body = placed(alloc, kind, at)?;
    body.push(bytes.len() as u8)?;
    body.extend_from_slice(bytes)?;
    Ok(body)
}

// A kind and a frame.
fn framed(alloc: Global, kind: u8, frame: &Frame) -> Result<Vec<u8>, NoMemory>
    ensures { IfOk result (λ body. (body.items ≡ kind ∷ spelling frame.now) × (is_frame frame.now ≡ true)) }
{
    let mut body = kind_alone(alloc, kind)?;
    encode(alloc, frame, &mut body)?;
    Ok(body)
}

fn edit_body(alloc: Global, edit: &LocalEdit) -> Result<Vec<u8>, NoMemory>
    ensures { IfOk result (λ body. (version : ℕ) → IsBody version (Step.Edit edit.now) body.items) }
{
    let body = match edit {
        LocalEdit::Insert { at, letter } => placed_piece(alloc, INSERT, *at, letter)?,
        LocalEdit::Delete { at } => placed(alloc, DELETE, *at)?,
        LocalEdit::Update { at, letter } => placed_piece(alloc, UPDATE, *at, letter)?,
    };
    Ok(body)
}

// The body of an operation; none where no entry can make the version.
fn operation_body(alloc: Global, version: u32, op: &AdminOp) -> Result<Option<Vec<u8>>, NoMemory>
    ensures some { IfOk result (λ body. IfSome body (λ b. IsBody version (Step.Administer op.now) b.items)) }
    ensures none { IfOk result (λ body. is_none body ≡ has_no_body version (Step.Administer op.now)) }
{
    let Some(entry) = Entry::checked(version, op.copied()?) else {
        return Ok(None);
    };
    let frame = Frame::Item(Message::Admin(entry));
    Ok(Some(framed(alloc, ADMINISTER, &frame)?))
}

fn message_body(alloc: Global, message: &Message) -> Result<Vec<u8>, NoMemory>
    ensures { IfOk result (λ body. (version : ℕ) → IsBody version (Step.Receive message.now) body.items) }
{
    let frame = Frame::Item(message.copied()?);
    framed(alloc, RECEIVE, &frame)
}

/// The body of a step at the version that an operation would make: none of a look, and none of an operation at a
/// version that no entry can make. It has at most 281 bytes.
///
/// It takes time and memory in the length of the body.
pub(crate) fn body_of(alloc: Global, version: u32, step: &Step) -> Result<Option<Vec<u8>>, NoMemory>
    ensures some { IfOk result (λ body. IfSome body (λ b. IsBody version step.now b.items)) }
    ensures none { IfOk result (λ body. is_none body ≡ has_no_body version step.now) }
{
    match step {
        Step::Edit(edit) => Ok(Some(edit_body(alloc, edit)?)),
        Step::Administer(op) => operation_body(alloc, version, op),
        Step::Receive(message) => Ok(Some(message_body(alloc, message)?)),
        Step::Settle => Ok(Some(kind_alone(alloc, SETTLE)?)),
        Step::ValidateNext => Ok(Some(kind_alone(alloc, VALIDATE_NEXT)?)),
        Step::Look { .. } | Step::Show => Ok(None),
    }
}
