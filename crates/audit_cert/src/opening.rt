//! The frames in front of the first End.
ghost use Rattle.std.specs.Prelude.{◌≡◌, ◌≤◌, ◌<◌, ◌-◌, ◌++◌, true, length, IfOk, IfErr};
ghost use Rattle.edit_frame.specs.Spelling.{spelling};
ghost use Rattle.edit_frame.specs.Spells.{is_frame};
ghost use Rattle.audit_cert.specs.Audit.{is_end_frame, IsClosed, IsAuditFault, IsFaultAt};

use crate::fault::AuditFault;
use crate::kept_frame::KeptFrame;
use edit_frame::{Frame, FrameFail, FrameFault, FrameKind, first_frame};
use std::alloc::Global;

/// The frames in front of the first End, and the bytes behind it.
#[derive(Drop)]
pub(crate) struct Opened<'a> {
    pub(crate) frames: Vec<KeptFrame>,
    pub(crate) told: &'a [u8],
}

fn is_end_frame(frame: &Frame) -> bool
    ensures { result ≡ is_end_frame frame.now }
{
    matches!(frame, Frame::End)
}

// The frame that the rest of the bytes begins with, and what stands behind it.
fn next_frame<'a>(
    alloc: Global,
    bytes: &[u8],
    rest: &'a [u8],
) -> Result<(Frame, &'a [u8]), AuditFault>
    requires { length rest.now ≤ length bytes.now }
    ensures whole { IfOk result (λ next. rest.now ≡ spelling next.0 ++ next.1.now) }
    ensures formed { IfOk result (λ next. is_frame next.0 ≡ true) }
    ensures shorter { IfOk result (λ next. length next.1.now < length rest.now) }
    ensures fault { IfErr result (IsFaultAt (length bytes.now - length rest.now) rest.now) }
{
    let offset = (bytes.len() - rest.len()) as u64;
    let kind = match first_frame(alloc, rest) {
        Ok(Some((frame, len))) => return Ok((frame, &rest[len..])),
        Ok(None) => FrameKind::Truncated,
        Err(FrameFail::Fault(kind)) => kind,
        Err(FrameFail::NoMemory) => return Err(AuditFault::NoMemory),
    };
    Err(AuditFault::BadFrame(FrameFault { offset, kind }))
}

/// The frames of the bytes up to the first End. Takes time in their number, and memory for them.
///
/// Fails at the first that is none, or where the bytes end before an End; and where memory is wanting.
pub(crate) fn open(alloc: Global, bytes: &[u8]) -> Result<Opened<'_>, AuditFault>
    ensures ok { IfOk result (λ o. IsClosed bytes.now o.frames.items o.told.now) }
    ensures fault { IfErr result (IsAuditFault bytes.now) }
{
    let mut frames = Vec::new(alloc);
    let mut rest = bytes;
    'frames: loop {
        let (frame, behind) = next_frame(alloc, bytes, rest)?;
        rest = behind;
        if is_end_frame(&frame) {
            return Ok(Opened { frames, told: rest });
        }
        let kept = KeptFrame::of(alloc, frame)?;
        let Ok(()) = frames.push(kept) else {
            return Err(AuditFault::NoMemory);
        };
    }
}
