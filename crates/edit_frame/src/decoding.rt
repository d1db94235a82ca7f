//! Frames from bytes.
ghost use Rattle.std.specs.Prelude.{◌≡◌, ◌≤◌, ◌+◌, ◌&&◌, ◌||◌, ◌==◌, true, false, nat_lt, length, drop, None, Ok, Err, IfOk};
ghost use Rattle.edit_frame.specs.declared.frame.Frame.{Frame};
ghost use Rattle.edit_frame.specs.declared.fail.FieldFail.TheVariants.{NoMemory as no_memory};
ghost use Rattle.edit_frame.specs.Gives.{MayGive, GivesDraft, GivesFrame, GivesLent, GivesLentAt, MayGiveLent, GivesAt, request_of_draft};
ghost use Rattle.edit_frame.specs.Reading.{is_kind, request_at, entry_fields_at, other_at, request_frame, frame_by, frame_of, cut_fault};
ghost use Rattle.edit_frame.specs.Reading.{length_field, inner, prefix_frame, decoded_frame, has_listing, takes_memory};
ghost use Rattle.edit_frame.specs.Fields.{has_lists};
ghost use Rattle.edit_frame.specs.Spells.{Spells};

use crate::fail::{Bad, FieldFail, FrameFail};
use crate::frame::{DecodeFail, Frame, FrameFault, FrameKind};
use crate::lent_frame::LentFrame;
use crate::limits::{LENGTH_BYTES, MAX_LENGTH, MIN_LENGTH};
use crate::numbers::{
    END_KIND, ENTRY_KIND, INSERT_KIND, LONG_VERSION, PLAIN_VERSION, TURN_KIND, UPDATE_KIND,
};
use crate::reading::{edit_of, name_of, operation_of, short_of};
use coop_request::{LentEdit, LentRequest};
use element_name::Name;
use policy_book::Entry;
use std::alloc::Global;

/// A request that isn't accepted yet.
#[derive(Drop)]
struct Draft<'a> {
    id: Name,
    version: u16,
    edit: LentEdit<'a>,
}

#[tactic(auto, unfolding(crate::specs::Reading::request_at))]
fn draft_of<'a>(
    version: u8,
    kind: u8,
    rest: &mut &'a [u8],
    room: &'a mut [u8; 4],
) -> Result<Draft<'a>, Bad>
    ensures { GivesDraft result rest.new.now (request_at version kind rest.old.now) }
{
    Ok(Draft {
        id: name_of(rest)?,
        version: short_of(rest)?,
        edit: edit_of(version, kind, rest, room)?,
    })
}

#[tactic(auto, unfolding(crate::specs::Reading::entry_fields_at))]
fn entry_of(alloc: Global, rest: &mut &[u8]) -> Result<Entry, FieldFail>
    ensures read { MayGive result rest.new.now (entry_fields_at rest.old.now) }
    ensures memory { result ≡ Err no_memory → has_lists (drop 2 rest.old.now) ≡ true }
{
    let version = short_of(rest)?;
    let op = operation_of(alloc, rest)?;
    Entry::checked(u32::from(version), op).ok_or(FieldFail::Bad)
}

#[tactic(auto, unfolding(crate::specs::Reading::other_at))]
fn other_of<'a>(alloc: Global, kind: u8, rest: &mut &[u8]) -> Result<LentFrame<'a>, FieldFail>
    ensures read { MayGiveLent result rest.new.now (other_at kind rest.old.now) }
    ensures memory { result ≡ Err no_memory → ((kind == ENTRY_KIND) && has_lists (drop 2 rest.old.now)) ≡ true }
{
    match kind {
        ENTRY_KIND => Ok(LentFrame::Entry(entry_of(alloc, rest)?)),
        TURN_KIND => Ok(LentFrame::Turn),
        END_KIND => Ok(LentFrame::End),
        _ => Err(FieldFail::Bad),
    }
}

fn accepted<'a>(draft: Draft<'a>) -> Result<LentFrame<'a>, FrameFail>
    ensures { GivesLent false result (request_frame (request_of_draft draft.entry)) }
{
    match LentRequest::checked(draft.id, u32::from(draft.version), draft.edit) {
        Ok(request) => Ok(LentFrame::Request(request)),
        Err(fault) => Err(FrameFail::Fault(FrameKind::BadRequest(fault))),
    }
}

fn is_kind(version: u8, kind: u8) -> bool
    ensures { result ≡ is_kind version kind }
{
    (version == PLAIN_VERSION && kind >= INSERT_KIND && kind <= END_KIND)
        || (version == LONG_VERSION && (kind == INSERT_KIND || kind == UPDATE_KIND))
}

// Whether bytes stand after the last field, or after the frame.
fn is_left(rest: &[u8], more: bool) -> bool
    ensures { result ≡ (nat_lt 0 (length rest.now) || more) }
{
    !rest.is_empty() || more
}

// The frame of a version and kind, whose fields are these bytes; `more` says whether bytes stand after it.
#[tactic(auto, unfolding(crate::specs::Reading::frame_by))]
fn frame_by<'a>(
    alloc: Global,
    more: bool,
    version: u8,
    kind: u8,
    fields: &'a [u8],
    room: &'a mut [u8; 4],
) -> Result<LentFrame<'a>, FrameFail>
    ensures { GivesLent ((kind == ENTRY_KIND) && has_lists (drop 2 fields.now)) result (frame_by more version kind fields.now) }
{
    if !is_kind(version, kind) {
        return Err(FrameFail::Fault(FrameKind::BadKind));
    }
    let mut rest = fields;
    if kind <= UPDATE_KIND {
        let draft = draft_of(version, kind, &mut rest, room)?;
        if is_left(rest, more) {
            return Err(FrameFail::Fault(FrameKind::LeftOver));
        }
        return accepted(draft);
    }
    let frame = other_of(alloc, kind, &mut rest)?;
    if is_left(rest, more) {
        return Err(FrameFail::Fault(FrameKind::LeftOver));
    }
    Ok(frame)
}

fn frame_of<'a>(
    alloc: Global,
    more: bool,
    inner: &'a [u8],
    room: &'a mut [u8; 4],
) -> Result<LentFrame<'a>, FrameFail>
    ensures { GivesLent (has_listing inner.now) result (frame_of more inner.now) }
{
    match inner {
        [version, kind, fields @ ..] => frame_by(alloc, more, *version, *kind, fields, room),
        _ => Err(FrameFail::Fault(FrameKind::BadKind)),
    }
}

// What the length field says.
pub fn length_of(bytes: &[u8]) -> u32
    requires { LENGTH_BYTES ≤ length bytes.now }
    ensures { result ≡ length_field bytes.now }
{
    u32::from_be_bytes([bytes[0], bytes[1], bytes[2], bytes[3]])
}

// Why the bytes begin with no whole frame.
#[tactic(auto, unfolding(crate::specs::Reading::cut_fault))]
pub fn cut_fault(bytes: &[u8]) -> Option<FrameKind>
    ensures { result ≡ cut_fault bytes.now }
{
    if bytes.len() < LENGTH_BYTES {
        return Some(FrameKind::Truncated);
    }
    let len = length_of(bytes);
    if len < MIN_LENGTH || len > MAX_LENGTH {
        return Some(FrameKind::BadLength);
    }
    if bytes.len() < LENGTH_BYTES + len as usize {
        return Some(FrameKind::Truncated);
    }
    None
}

// The bytes after the length field, as many as it says.
fn inner_of(bytes: &[u8]) -> &[u8]
    requires { cut_fault bytes.now ≡ None }
    ensures { result.now ≡ inner bytes.now }
{
    let len = length_of(bytes) as usize;
    &bytes[LENGTH_BYTES..LENGTH_BYTES + len]
}

// The whole frame that the bytes begin with, lent from these and from the room; `more` says whether bytes after it are a fault.
pub fn whole_lent<'a>(
    alloc: Global,
    more: bool,
    bytes: &'a [u8],
    room: &'a mut [u8; 4],
) -> Result<LentFrame<'a>, FrameFail>
    requires { cut_fault bytes.now ≡ None }
    ensures { GivesLent (takes_memory bytes.now) result (prefix_frame more bytes.now) }
{
    frame_of(alloc, more, inner_of(bytes), room)
}

fn has_more(bytes: &[u8]) -> bool
    requires { cut_fault bytes.now ≡ None }
    ensures { result ≡ nat_lt (LENGTH_BYTES + length_field bytes.now) (length bytes.now) }
{
    LENGTH_BYTES + (length_of(bytes) as usize) < bytes.len()
}

#[tactic(auto, unfolding(crate::specs::Reading::decoded_frame))]
fn all_lent<'a>(
    alloc: Global,
    message: &'a [u8],
    room: &'a mut [u8; 4],
) -> Result<LentFrame<'a>, FrameFail>
    ensures { GivesLent (takes_memory message.now) result (decoded_frame message.now) }
{
    if let Some(kind) = cut_fault(message) {
        return Err(FrameFail::Fault(kind));
    }
    whole_lent(alloc, has_more(message), message, room)
}

fn decode_all(alloc: Global, message: &[u8]) -> Result<Frame, FrameFail>
    ensures { GivesFrame (takes_memory message.now) result (decoded_frame message.now) }
{
    let mut room = [0; 4];
    Ok(all_lent(alloc, message, &mut room)?.frame())
}

/// The frame that is all of the bytes, as [`decode`] gives it, lent from these. The letter of a frame of one scalar value is
/// lent from the room. Takes time and memory as `decode`.
pub fn decode_lent<'a>(
    alloc: Global,
    message: &'a [u8],
    room: &'a mut [u8; 4],
) -> Result<LentFrame<'a>, DecodeFail>
    ensures { GivesLentAt 0 (takes_memory message.now) result (decoded_frame message.now) }
{
    match all_lent(alloc, message, room) {
        Ok(frame) => Ok(frame),
        Err(FrameFail::NoMemory) => Err(DecodeFail::NoMemory),
        Err(FrameFail::Fault(kind)) => Err(DecodeFail::Fault(FrameFault { offset: 0, kind })),
    }
}

/// The frame that is all of the bytes, in time in their number up to 280. Only the lists of an authorization and of an
/// object's elements take memory.
pub fn decode(alloc: Global, message: &[u8]) -> Result<Frame, DecodeFail>
    // What is given is spelled so.
    ensures found { IfOk result (λ f. Spells message.now f) }
    // What is spelled so is given, if memory isn't wanting.
    ensures only { (f : Frame) → Spells message.now f → GivesAt 0 (takes_memory message.now) result (Ok f) }
    // The frame or the first fault, or memory is wanting, but only where lists are read.
    ensures exact { GivesAt 0 (takes_memory message.now) result (decoded_frame message.now) }
{
    match decode_all(alloc, message) {
        Ok(frame) => Ok(frame),
        Err(FrameFail::NoMemory) => Err(DecodeFail::NoMemory),
        Err(FrameFail::Fault(kind)) => Err(DecodeFail::Fault(FrameFault { offset: 0, kind })),
    }
}
