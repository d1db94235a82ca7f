//! The lines of frames that are no messages, and of a stream's fault.
ghost use Rattle.std.specs.Prelude.{◌≡◌, ◌++◌, OnOk, OnErr};
ghost use Rattle.line_spelling.specs.Values.{behind_spaces};
ghost use Rattle.report_text.specs.Frame.{request_fault_text, frame_kind_words, frame_fault_line, turn_line, end_line};

use coop_request::RequestFault;
use edit_frame::{FrameFault, FrameKind};
use element_name::NoMemory;
use line_write::{put, put_number_word};
use std::alloc::Global;

fn put_request_fault(line: &mut Vec<u8>, fault: RequestFault) -> Result<(), NoMemory>
    ensures { OnOk result (line.new.items ≡ line.old.items ++ request_fault_text fault) }
{
    match fault {
        RequestFault::BadVersion => put(line, b"1"),
        RequestFault::StartTarget => put(line, b"2"),
        RequestFault::StampOrder => put(line, b"3"),
    }
}

/// Appends the numbers of a frame's fault, each behind a space. After a failure the line may have a part of them.
pub fn put_frame_kind(line: &mut Vec<u8>, kind: FrameKind) -> Result<(), NoMemory>
    ensures { OnOk result (line.new.items ≡ line.old.items ++ behind_spaces (frame_kind_words kind)) }
{
    match kind {
        FrameKind::BadLength => put(line, b" 1"),
        FrameKind::BadKind => put(line, b" 2"),
        FrameKind::BadField => put(line, b" 3"),
        FrameKind::LeftOver => put(line, b" 4"),
        FrameKind::Truncated => put(line, b" 5"),
        FrameKind::BadRequest(fault) => {
            put(line, b" 6 ")?;
            put_request_fault(line, fault)
        }
    }
}

/// Appends the line that says which frame of a stream is bad, and why. Takes time in the length of the line.
pub fn frame_fault_line(alloc: Global, fault: FrameFault, out: &mut Vec<u8>) -> Result<(), NoMemory>
    ensures ok { OnOk result (out.new.items ≡ out.old.items ++ frame_fault_line fault) }
    ensures unchanged { OnErr result (out.new.items ≡ out.old.items) }
{
    let mut line = Vec::new(alloc);
    put(&mut line, b"bad frame")?;
    put_number_word(&mut line, fault.offset)?;
    put_frame_kind(&mut line, fault.kind)?;
    put(&mut line, b"\n")?;
    out.extend_from_slice(&line)?;
    Ok(())
}

/// Appends the line of a frame that gives the turn to the other side.
pub fn turn_line(out: &mut Vec<u8>) -> Result<(), NoMemory>
    ensures ok { OnOk result (out.new.items ≡ out.old.items ++ turn_line) }
    ensures unchanged { OnErr result (out.new.items ≡ out.old.items) }
{
    out.extend_from_slice(b"turn\n")?;
    Ok(())
}

/// Appends the line of a frame that says that nothing more comes.
pub fn end_line(out: &mut Vec<u8>) -> Result<(), NoMemory>
    ensures ok { OnOk result (out.new.items ≡ out.old.items ++ end_line) }
    ensures unchanged { OnErr result (out.new.items ≡ out.old.items) }
{
    out.extend_from_slice(b"end\n")?;
    Ok(())
}
