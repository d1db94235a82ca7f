//! The side that is called.
ghost use Rattle.std.specs.Prelude.{◌≡◌};
ghost use Rattle.session_core.specs.Events.{serving};
ghost use Rattle.session_core.specs.Session.{side, Session, LeavesSide};

use crate::fault::SessionFault;
use crate::turns::{receive_turn, send_turn};
use edit_io::Link;
use peer_lock::{Pass, SharedPeer};
use std::alloc::Global;
use std::sync::Wait;
use std::thread::Threads;

/// Takes a turn and gives one, until an end comes. Answers how many turns came.
///
/// It waits for the other side, and for the gate of the shared peer. `validates` says whether requests are validated
/// after each turn that came, as the administrator's peer does. Each message that comes costs the steps of its item,
/// each turn that goes a look for each item of the journal that this call hasn't sent yet.
pub fn serve_link<L: Link, R: Threads + Wait + Sync>(
    rt: &R,
    alloc: Global,
    shared: &SharedPeer,
    pass: &mut Pass,
    link: &mut L,
    validates: bool,
) -> Result<u32, SessionFault>
    requires own { pass.old.table ≡ shared.now }
    // The pass stays what it is and knows of a full run, and the link counts what was met.
    ensures left { LeavesSide L.closes L.faults pass.old pass.new link.old link.new result }
    // The new steps and messages are those of a session, whole or cut by the fault.
    ensures session { Session (serving validates)
        (side pass.old (L.got link.old) (L.sent link.old)) (side pass.new (L.got link.new) (L.sent link.new)) result }
{
    let mut mark = 0;
    let mut turns = 0;
    for _ in rt.forever() {
        let is_turn = receive_turn(rt, alloc, shared, pass, link, validates)?;
        if !is_turn {
            return Ok(turns);
        }
        turns += 1;
        mark = send_turn(rt, alloc, shared, pass, link, mark)?;
    }
    unreachable!()
}
