//! The steps of bodies, made where they lie.
ghost use Rattle.std.specs.Prelude.{◌≡◌, ◌+◌, Some, false, option_map, IfOk, IsTrue};
ghost use Rattle.edit_frame.specs.Reading.{framed_message};
ghost use Rattle.edit_message.specs.declared.message.Message.{Message};
ghost use Rattle.peer_step.specs.declared.step.Step.{Step};
ghost use Rattle.peer_step.specs.Lent.{local_edit_lent};
ghost use Rattle.peer_core.specs.Peer.{front};
ghost use Rattle.peer_store.specs.Reading.{receive_by, operation_of_entry, alone_in, step_of_kind, step_in_body};
ghost use Rattle.peer_store.specs.Replay.{MakesBody, IsMade};
ghost use Rattle.peer_store.specs.Store.{IsNoStep};

use crate::body::{
    ADMINISTER, DELETE, INSERT, RECEIVE, SETTLE, UPDATE, VALIDATE_NEXT, alone, delete_of,
    insert_of, operation_of, update_of,
};
use crate::spelled::next_version;
use crate::stepped::{Counts, Stepped, make_step};
use coop_request::LentRequest;
use edit_frame::{DecodeFail, LentFrame, decode_lent};
use edit_message::Message;
use element_name::NoMemory;
use peer_core::Peer;
use peer_step::{LentLocalEdit, Step};
use policy_book::Entry;
use std::alloc::Global;

// Makes an own edit, if there is one, and says whether it changes the peer.
fn make_edit(peer: &mut Peer, edit: Option<LentLocalEdit<'_>>) -> Result<bool, NoMemory>
    ensures { IfOk result (λ made. IsMade peer.old (option_map (λ e. Step.Edit (local_edit_lent e)) edit.entry) made peer.new) }
{
    let Some(edit) = edit else {
        return Ok(false);
    };
    let before = Counts::of(peer);
    peer.edit(edit)?;
    Ok(before.changed(peer))
}

// Receives a request, and says whether that changes the peer.
fn make_request(peer: &mut Peer, request: &LentRequest<'_>) -> Result<bool, NoMemory>
    ensures { IfOk result (λ made. IsMade peer.old (Some (Step.Receive (Message.Coop request.now))) made peer.new) }
{
    let before = Counts::of(peer);
    let told = peer.receive_request(request);
    if told.is_err() {
        return Err(NoMemory);
    }
    Ok(before.changed(peer))
}

// Makes a step, if there is one, and says whether it changes the peer. It stands apart from those that are lent, since a step and
// an answer have room for pieces.
#[inline(never)]
fn make_whole(peer: &mut Peer, step: Option<Step>) -> Result<bool, NoMemory>
    ensures { IfOk result (λ made. IsMade peer.old step made peer.new) }
{
    let Some(step) = step else {
        return Ok(false);
    };
    let Stepped { answer, changed } = make_step(peer, step)?;
    drop(answer);
    Ok(changed)
}

// Receives an entry, and says whether that changes the peer.
#[inline(never)]
fn make_entry(peer: &mut Peer, entry: Entry) -> Result<bool, NoMemory>
    ensures { IfOk result (λ made. IsMade peer.old (Some (Step.Receive (Message.Admin entry))) made peer.new) }
{
    make_whole(peer, Some(Step::Receive(Message::Admin(entry))))
}

// Receives the message whose frame is all of the fields, if there is one.
fn make_received(alloc: Global, peer: &mut Peer, fields: &[u8]) -> Result<bool, NoMemory>
    ensures { IfOk result (λ made. IsMade peer.old (receive_by (framed_message fields.now)) made peer.new) }
{
    let mut room = [0; 4];
    match decode_lent(alloc, fields, &mut room) {
        Ok(LentFrame::Request(request)) => make_request(peer, &request),
        Ok(LentFrame::Entry(entry)) => make_entry(peer, entry),
        Ok(LentFrame::Turn) | Ok(LentFrame::End) | Err(DecodeFail::Fault(_)) => Ok(false),
        Err(DecodeFail::NoMemory) => Err(NoMemory),
    }
}

// Makes the operation of the entry whose frame is all of the fields, if there is one that makes the next version.
#[inline(never)]
fn make_operation(alloc: Global, peer: &mut Peer, fields: &[u8]) -> Result<bool, NoMemory>
    ensures { IfOk result (λ made. IsMade peer.old (operation_of_entry (front peer.old + 1) (framed_message fields.now)) made peer.new) }
{
    let step = operation_of(alloc, next_version(peer), fields)?;
    make_whole(peer, step)
}

// Settles, where there are no fields.
#[inline(never)]
fn make_settle(peer: &mut Peer, fields: &[u8]) -> Result<bool, NoMemory>
    ensures { IfOk result (λ made. IsMade peer.old (alone_in fields.now Step.Settle) made peer.new) }
{
    make_whole(peer, alone(fields, Step::Settle))
}

// Validates what is next, where there are no fields.
#[inline(never)]
fn make_validation(peer: &mut Peer, fields: &[u8]) -> Result<bool, NoMemory>
    ensures { IfOk result (λ made. IsMade peer.old (alone_in fields.now Step.ValidateNext) made peer.new) }
{
    make_whole(peer, alone(fields, Step::ValidateNext))
}

// Makes the step of a kind, if these are the fields of one.
fn make_kind(alloc: Global, peer: &mut Peer, kind: u8, fields: &[u8]) -> Result<bool, NoMemory>
    ensures { IfOk result (λ made. IsMade peer.old (step_of_kind (front peer.old + 1) kind fields.now) made peer.new) }
{
    match kind {
        INSERT => make_edit(peer, insert_of(fields)),
        DELETE => make_edit(peer, delete_of(fields)),
        UPDATE => make_edit(peer, update_of(fields)),
        ADMINISTER => make_operation(alloc, peer, fields),
        RECEIVE => make_received(alloc, peer, fields),
        SETTLE => make_settle(peer, fields),
        VALIDATE_NEXT => make_validation(peer, fields),
        _ => Ok(false),
    }
}

// Makes the step of a body, if it has one.
fn make_in(alloc: Global, peer: &mut Peer, body: &[u8]) -> Result<bool, NoMemory>
    ensures { IfOk result (λ made. IsMade peer.old (step_in_body (front peer.old + 1) body.now) made peer.new) }
{
    match body {
        [kind, fields @ ..] => make_kind(alloc, peer, *kind, fields),
        [] => Ok(false),
    }
}

/// Makes the step of a body, and says whether it is one that changes the peer.
///
/// A piece stays where it lies in the body. Takes the time and the memory of the step; reading an operation with lists takes
/// memory besides.
pub(crate) fn make_body(alloc: Global, peer: &mut Peer, body: &[u8]) -> Result<bool, NoMemory>
    ensures made { IfOk result (λ made. IsTrue made → MakesBody peer.old body.now peer.new) }
    ensures no_step { IfOk result (λ made. made ≡ false → IsNoStep peer.old body.now) }
{
    make_in(alloc, peer, body)
}
