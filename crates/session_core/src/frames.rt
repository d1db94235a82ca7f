//! Frames that come and go over a link.
ghost use Rattle.std.specs.Prelude.{◌≡◌, ◌+◌, IfErr};
ghost use Rattle.edit_frame.specs.Spelling.{spelling};
ghost use Rattle.peer_lock.specs.KnownPass.{KnownPass};
ghost use Rattle.session_core.specs.Events.{SessionState, Mode, Listens};
ghost use Rattle.session_core.specs.Session.{side, closed_by, faults_after_session};
ghost use Rattle.session_core.specs.Pieces.{Hearing, Sending, IsFrameFault};

use crate::fault::SessionFault;
use edit_frame::{DecodeFail, Frame, decode, encode};
use edit_io::{Link, OutFail};
use edit_message::Message;
use std::alloc::Global;

/// The next frame that comes.
pub(crate) fn receive_frame<L: Link>(alloc: Global, link: &mut L) -> Result<Frame, SessionFault>
    ensures kind { IfErr result IsFrameFault }
    ensures closes { L.closes link.new ≡ L.closes link.old + closed_by result }
    ensures faults { L.faults link.new ≡ faults_after_session (L.faults link.old) result }
    ensures talk { (mode : Mode) (s : SessionState) (k : KnownPass) → s.phase ≡ Listens
        → Hearing mode s (side k (L.got link.old) (L.sent link.old)) (side k (L.got link.new) (L.sent link.new)) result }
{
    match link.recv() {
        Ok(Some(message)) => match decode(alloc, message.as_slice()) {
            Ok(frame) => Ok(frame),
            Err(DecodeFail::Fault(fault)) => Err(SessionFault::BadFrame(fault)),
            Err(DecodeFail::NoMemory) => Err(SessionFault::NoMemory),
        },
        Ok(None) => Err(SessionFault::Closed),
        Err(OutFail::Failed) => Err(SessionFault::LinkFault),
        Err(OutFail::NoMemory) => Err(SessionFault::NoMemory),
    }
}

/// Sends a frame.
pub(crate) fn send_frame<L: Link>(
    alloc: Global,
    link: &mut L,
    frame: &Frame,
) -> Result<(), SessionFault>
    ensures kind { IfErr result IsFrameFault }
    ensures closes { L.closes link.new ≡ L.closes link.old + closed_by result }
    ensures faults { L.faults link.new ≡ faults_after_session (L.faults link.old) result }
    ensures got { L.got link.new ≡ L.got link.old }
    ensures sent { Sending (L.sent link.old) (L.sent link.new) (spelling frame.now) result }
{
    let mut bytes = Vec::new(alloc);
    match encode(alloc, frame, &mut bytes) {
        Ok(()) => {}
        Err(_) => return Err(SessionFault::NoMemory),
    }
    match link.send(bytes.as_slice()) {
        Ok(()) => Ok(()),
        Err(OutFail::Failed) => Err(SessionFault::LinkFault),
        Err(OutFail::NoMemory) => Err(SessionFault::NoMemory),
    }
}

/// Sends an item.
pub(crate) fn send_item<L: Link>(
    alloc: Global,
    link: &mut L,
    message: Message,
) -> Result<(), SessionFault>
    ensures kind { IfErr result IsFrameFault }
    ensures closes { L.closes link.new ≡ L.closes link.old + closed_by result }
    ensures faults { L.faults link.new ≡ faults_after_session (L.faults link.old) result }
    ensures got { L.got link.new ≡ L.got link.old }
    ensures sent { Sending (L.sent link.old) (L.sent link.new) (spelling (Frame.Item message)) result }
{
    let frame = Frame::Item(message);
    send_frame(alloc, link, &frame)
}
