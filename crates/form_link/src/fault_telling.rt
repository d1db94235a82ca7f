//! What is told of faults.
ghost use Rattle.std.specs.Prelude.{◌≡◌, ◌++◌, OnOk, IfOk, flat_map};
ghost use Rattle.line_spelling.specs.Values.{behind_spaces};
ghost use Rattle.form_link.specs.Lines.{session_fault_words, link_line, fault_line};
ghost use Rattle.form_link.specs.Lines.{session_status, fault_status, wants_memory, first_status, faults_status};
ghost use Rattle.std.specs.List.{list_any};

use crate::faults::Fault;
use element_name::NoMemory;
use line_engine::{Status, put_bad_line};
use line_write::{put, put_number_word};
use report_text::put_frame_kind;
use session_core::SessionFault;
use std::alloc::Global;

// ---- lines

// Appends how a session was cut, each word behind a space.
fn put_session_fault(line: &mut Vec<u8>, fault: SessionFault) -> Result<(), NoMemory>
    ensures { OnOk result (line.new.items ≡ line.old.items ++ behind_spaces (session_fault_words fault)) }
{
    match fault {
        SessionFault::LinkFault => put(line, b" fault"),
        SessionFault::Closed => put(line, b" closed"),
        SessionFault::BadFrame(fault) => {
            put(line, b" bad frame")?;
            put_frame_kind(line, fault.kind)
        }
        SessionFault::RunFull => put(line, b" too long"),
        SessionFault::NoMemory => Ok(()),
    }
}

// Appends the line of a link whose session was cut; none where memory was wanting.
fn put_link(lines: &mut Vec<u8>, number: u64, fault: SessionFault) -> Result<(), NoMemory>
    ensures { OnOk result (lines.new.items ≡ lines.old.items ++ link_line number fault) }
{
    if let SessionFault::NoMemory = fault {
        return Ok(());
    }
    put(lines, b"link")?;
    put_number_word(lines, number)?;
    put_session_fault(lines, fault)?;
    put(lines, b"\n")
}

// Appends the line of a fault.
fn put_fault(alloc: Global, lines: &mut Vec<u8>, fault: Fault) -> Result<(), NoMemory>
    ensures { OnOk result (lines.new.items ≡ lines.old.items ++ fault_line fault) }
{
    match fault {
        Fault::Door => put(lines, b"door fault\n"),
        Fault::BadLine(number) => put_bad_line(alloc, number, lines).or(Err(NoMemory)),
        Fault::TooLong => put(lines, b"too long\n"),
        Fault::Read => put(lines, b"read fault\n"),
        Fault::NoMemory => Ok(()),
        Fault::Link { number, fault } => put_link(lines, number, fault),
    }
}

/// The lines of faults, in their order. A want of memory has no line.
pub fn fault_lines(alloc: Global, faults: &[Fault]) -> Result<Vec<u8>, NoMemory>
    ensures { IfOk result (λ lines. lines.items ≡ flat_map fault_line faults.now) }
{
    let mut lines = Vec::new(alloc);
    for fault in faults {
        put_fault(alloc, &mut lines, *fault)?;
    }
    Ok(lines)
}

// ---- the status

impl Fault {
    // Whether memory was wanting.
    fn wants_memory(self) -> bool
        ensures { result ≡ wants_memory self }
    {
        matches!(
            self,
            Fault::NoMemory
                | Fault::Link {
                    fault: SessionFault::NoMemory,
                    ..
                }
        )
    }

    // The status that the fault gives by itself.
    fn status(self) -> Status
        ensures { result ≡ fault_status self }
    {
        match self {
            Fault::Door => Status::LinkFault,
            Fault::BadLine(_) => Status::BadInput,
            Fault::TooLong => Status::TooLong,
            Fault::Read => Status::ReadFault,
            Fault::NoMemory => Status::NoMemory,
            Fault::Link { fault, .. } => session_status(fault),
        }
    }
}

// The status that a session gives which was cut so.
fn session_status(fault: SessionFault) -> Status
    ensures { result ≡ session_status fault }
{
    match fault {
        SessionFault::LinkFault => Status::LinkFault,
        SessionFault::Closed | SessionFault::BadFrame(_) => Status::BadInput,
        SessionFault::RunFull => Status::TooLong,
        SessionFault::NoMemory => Status::NoMemory,
    }
}

// Whether memory was wanting in one of these faults.
fn any_wants_memory(faults: &[Fault]) -> bool
    ensures { result ≡ list_any wants_memory faults.now }
{
    faults.iter().any(|fault| fault.wants_memory())
}

// The status of the first of these faults.
fn first_status(faults: &[Fault]) -> Status
    ensures { result ≡ first_status faults.now }
{
    match faults {
        [first, ..] => first.status(),
        [] => Status::Done,
    }
}

/// The status of a run that met these faults: that of a want of memory wherever one is among them, and else that of the
/// first. Without a fault it is done.
pub fn faults_status(faults: &[Fault]) -> Status
    ensures { result ≡ faults_status faults.now }
{
    if any_wants_memory(faults) {
        Status::NoMemory
    } else {
        first_status(faults)
    }
}
