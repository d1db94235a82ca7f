//! The side that calls.
ghost use Rattle.std.specs.Prelude.{◌≡◌};
ghost use Rattle.session_core.specs.Events.{dialling};
ghost use Rattle.session_core.specs.Session.{side, Session, LeavesSide};

use crate::fault::SessionFault;
use crate::frames::send_frame;
use crate::turns::{receive_turn, send_turn};
use edit_frame::Frame;
use edit_io::Link;
use peer_lock::{Pass, SharedPeer};
use std::alloc::Global;
use std::sync::Wait;
use std::thread::Threads;

/// Gives a turn and takes one, in so many rounds or until an end comes, and sends an end after the last round.
///
/// Answers how many rounds were whole: fewer than asked exactly where an end came. Without rounds it sends an end at
/// once. It waits and costs as [`crate::serve_link`] does.
pub fn dial_link<L: Link, R: Threads + Wait + Sync>(
    rt: &R,
    alloc: Global,
    shared: &SharedPeer,
    pass: &mut Pass,
    link: &mut L,
    rounds: u32,
    validates: bool,
) -> Result<u32, SessionFault>
    requires own { pass.old.table ≡ shared.now }
    // The pass stays what it is and knows of a full run, and the link counts what was met.
    ensures left { LeavesSide L.closes L.faults pass.old pass.new link.old link.new result }
    // The new steps and messages are those of a session, whole or cut by the fault.
    ensures session { Session (dialling validates rounds)
        (side pass.old (L.got link.old) (L.sent link.old)) (side pass.new (L.got link.new) (L.sent link.new)) result }
{
    let mut mark = 0;
    for round in 0..rounds {
        mark = send_turn(rt, alloc, shared, pass, link, mark)?;
        let is_turn = receive_turn(rt, alloc, shared, pass, link, validates)?;
        if !is_turn {
            return Ok(round);
        }
    }
    send_frame(alloc, link, &Frame::End)?;
    Ok(rounds)
}
