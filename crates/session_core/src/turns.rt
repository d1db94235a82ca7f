//! A turn, each way.
ghost use Rattle.std.specs.Prelude.{◌≡◌, ◌≤◌, length};
ghost use Rattle.session_core.specs.Session.{side, LeavesSide};
ghost use Rattle.session_core.specs.Pieces.{TurnOut, TurnIn};

use crate::backlog::Backlog;
use crate::fault::SessionFault;
use crate::frames::{receive_frame, send_frame, send_item};
use crate::steps::{clear, look, take_item};
use edit_frame::Frame;
use edit_io::Link;
use peer_lock::{Pass, SharedPeer};
use std::alloc::Global;
use std::sync::Wait;
use std::thread::Threads;

/// Sends what the journal has from the mark on, and then a turn. Answers the new mark.
pub(crate) fn send_turn<L: Link, R: Threads + Wait + Sync>(
    rt: &R,
    alloc: Global,
    shared: &SharedPeer,
    pass: &mut Pass,
    link: &mut L,
    mark: u32,
) -> Result<u32, SessionFault>
    requires own { pass.old.table ≡ shared.now }
    requires few { mark ≤ length pass.old.view.seen }
    ensures left { LeavesSide L.closes L.faults pass.old pass.new link.old link.new result }
    ensures grown { length pass.old.view.seen ≤ length pass.new.view.seen }
    ensures talk { TurnOut
        (side pass.old (L.got link.old) (L.sent link.old)) (side pass.new (L.got link.new) (L.sent link.new)) mark result }
{
    let mut mark = mark;
    for _ in rt.forever() {
        let found = look(rt, alloc, shared, pass, mark)?;
        match found {
            Some(message) => {
                send_item(alloc, link, message)?;
                mark += 1;
            }
            None => {
                send_frame(alloc, link, &Frame::Turn)?;
                return Ok(mark);
            }
        }
    }
    unreachable!()
}

/// Takes what comes until the other side's turn, and does what a turn asks for. False where an end came.
pub(crate) fn receive_turn<L: Link, R: Threads + Wait + Sync>(
    rt: &R,
    alloc: Global,
    shared: &SharedPeer,
    pass: &mut Pass,
    link: &mut L,
    validates: bool,
) -> Result<bool, SessionFault>
    requires own { pass.old.table ≡ shared.now }
    ensures left { LeavesSide L.closes L.faults pass.old pass.new link.old link.new result }
    ensures grown { length pass.old.view.seen ≤ length pass.new.view.seen }
    ensures talk { TurnIn validates
        (side pass.old (L.got link.old) (L.sent link.old)) (side pass.new (L.got link.new) (L.sent link.new)) result }
{
    for _ in rt.forever() {
        let frame = receive_frame(alloc, link)?;
        match frame {
            Frame::Item(message) => take_item(rt, alloc, shared, pass, message)?,
            Frame::Turn => {
                if validates {
                    clear(rt, alloc, shared, pass, Backlog::Unvalidated)?;
                    return Ok(true);
                }
                return Ok(true);
            }
            Frame::End => return Ok(false),
        }
    }
    unreachable!()
}
