//! Writing the lines of a certificate.
//!
//! Where memory is wanting a part of the lines may stand in the output.
ghost use Rattle.std.specs.Prelude.{◌≡◌, ◌≤◌, ◌++◌, ◌∷◌, true, [], IsTrue, map, length, codes, OnOk};
ghost use Rattle.std.specs.List.{concat, flat_map, list_all};
ghost use Rattle.element_name.specs.Name.{has_name};
ghost use Rattle.coop_request.specs.Request.{element_of};
ghost use Rattle.line_spelling.specs.Line.{line_of};
ghost use Rattle.line_spelling.specs.Values.{spaced, name_text};
ghost use Rattle.line_spelling.specs.Answers.{state_words};
ghost use Rattle.audit_cert.specs.Audit.{messages_of_frames};
ghost use Rattle.audit_cert.specs.Basis.{may_be_judged, message_bytes};
ghost use Rattle.audit_cert.specs.Certificate.{counts_line, element_line, grant_line, request_lines};
ghost use Rattle.audit_cert.specs.Rematches.{IsRematchTable};

use crate::findings::findings_of;
use crate::grant::Grant;
use crate::judging::Judging;
use crate::kept_frame::KeptFrame;
use coop_request::Request;
use edit_message::Message;
use element_name::{Name, NoMemory, Places};
use line_write::{put, put_name_word, put_number_word, put_state};
use peer_core::JournalItem;
use request_state::State;
use std::alloc::Global;

/// Appends the line of the counts.
pub(crate) fn put_counts(out: &mut Vec<u8>, requests: u64, entries: u64) -> Result<(), NoMemory>
    ensures { OnOk result (out.new.items ≡ out.old.items ++ counts_line requests entries) }
{
    put(out, b"certificate")?;
    put_number_word(out, requests)?;
    put_number_word(out, entries)?;
    put(out, b"\n")
}

fn put_element(out: &mut Vec<u8>, name: Name) -> Result<(), NoMemory>
    ensures { OnOk result (out.new.items ≡ out.old.items ++ element_line name) }
{
    put(out, b"element")?;
    put_name_word(out, name)?;
    put(out, b"\n")
}

/// Appends the line of each element.
pub(crate) fn put_elements(out: &mut Vec<u8>, names: &[Name]) -> Result<(), NoMemory>
    ensures { OnOk result (out.new.items ≡ out.old.items ++ concat (map element_line names.now)) }
{
    for name in names {
        put_element(out, *name)?;
    }
    Ok(())
}

fn put_grant(out: &mut Vec<u8>, grant: Grant) -> Result<(), NoMemory>
    ensures { OnOk result (out.new.items ≡ out.old.items ++ grant_line grant) }
{
    put(out, b"grant")?;
    put_number_word(out, u64::from(grant.from))?;
    put_number_word(out, u64::from(grant.to))?;
    put(out, b" by")?;
    put_number_word(out, u64::from(grant.by))?;
    put(out, b"\n")
}

fn put_grants(out: &mut Vec<u8>, grants: &[Grant]) -> Result<(), NoMemory>
    ensures { OnOk result (out.new.items ≡ out.old.items ++ concat (map grant_line grants.now)) }
{
    for grant in grants {
        put_grant(out, *grant)?;
    }
    Ok(())
}

fn put_state_line(out: &mut Vec<u8>, name: Name, state: State) -> Result<(), NoMemory>
    ensures { OnOk result (out.new.items ≡ out.old.items ++ line_of (spaced (codes "request" ∷ name_text name ∷ state_words state))) }
{
    put(out, b"request")?;
    put_name_word(out, name)?;
    put_state(out, state)?;
    put(out, b"\n")
}

// Appends the lines of a message, which are those of its request, if it is one.
fn put_message<P: Places>(
    alloc: Global,
    out: &mut Vec<u8>,
    judging: &Judging<'_, P>,
    message: Message,
) -> Result<(), NoMemory>
    requires table { IsRematchTable judging.now.log.now judging.now.table.now }
    requires judged { may_be_judged (P.names judging.now.places.now) (length judging.now.log.now) message ≡ true }
    ensures { OnOk result (out.new.items ≡ out.old.items ++ message_bytes (P.names judging.now.places.now) judging.now.log.now message) }
{
    match message {
        Message::Coop(request) => {
            let findings = findings_of(alloc, judging, request)?;
            put_state_line(out, request.id(), findings.state)?;
            put_grants(out, &findings.grants)
        }
        Message::Admin(_) => Ok(()),
    }
}

/// Appends the lines of each request.
pub(crate) fn put_requests<P: Places>(
    alloc: Global,
    out: &mut Vec<u8>,
    judging: &Judging<'_, P>,
    journal: &[JournalItem<'_>],
) -> Result<(), NoMemory>
    requires table { IsRematchTable judging.now.log.now judging.now.table.now }
    requires judged { IsTrue (list_all (may_be_judged (P.names judging.now.places.now) (length judging.now.log.now)) journal.now) }
    ensures { OnOk result (out.new.items ≡ out.old.items ++ flat_map (message_bytes (P.names judging.now.places.now) judging.now.log.now) journal.now) }
{
    for item in journal {
        let message = item.copied()?;
        put_message(alloc, out, judging, message)?;
    }
    Ok(())
}

// Appends the lines of a frame, which are those of its message, if it is one.
fn put_frame<P: Places>(
    alloc: Global,
    out: &mut Vec<u8>,
    judging: &Judging<'_, P>,
    frame: &KeptFrame,
) -> Result<(), NoMemory>
    requires table { IsRematchTable judging.now.log.now judging.now.table.now }
    requires judged { IsTrue (list_all (may_be_judged (P.names judging.now.places.now) (length judging.now.log.now)) (messages_of_frames (frame.now ∷ []))) }
    ensures { OnOk result (out.new.items ≡ out.old.items ++ flat_map (message_bytes (P.names judging.now.places.now) judging.now.log.now) (messages_of_frames (frame.now ∷ []))) }
{
    let item = frame.message()?;
    match item {
        Some(message) => put_message(alloc, out, judging, message),
        None => Ok(()),
    }
}

/// Appends the lines of each request among frames.
pub(crate) fn put_frames<P: Places>(
    alloc: Global,
    out: &mut Vec<u8>,
    judging: &Judging<'_, P>,
    frames: &[KeptFrame],
) -> Result<(), NoMemory>
    requires table { IsRematchTable judging.now.log.now judging.now.table.now }
    requires judged { IsTrue (list_all (may_be_judged (P.names judging.now.places.now) (length judging.now.log.now)) (messages_of_frames frames.now)) }
    ensures { OnOk result (out.new.items ≡ out.old.items ++ flat_map (message_bytes (P.names judging.now.places.now) judging.now.log.now) (messages_of_frames frames.now)) }
{
    for frame in frames {
        put_frame(alloc, out, judging, frame)?;
    }
    Ok(())
}
