//! Taking links from a door.
ghost use Rattle.std.specs.Prelude.{◌≡◌, ◌+◌, ◌≤◌, ◌++◌, ℕ, List, [], length, OnOk, vec_len, vec_capacity};
ghost use Rattle.edit_io.specs.Door.{failed_by};
ghost use Rattle.peer_lock.specs.KnownPass.{KnownPass};
ghost use Rattle.link_run.specs.Gathered.{EachOf};
ghost use Rattle.link_run.specs.Jobs.{passes_of};
ghost use Rattle.link_run.specs.Taken.{HasRoomForLinks, IsUnservedJob};

use crate::job::Job;
use edit_io::{Door, Failed};
use peer_lock::Pass;
use std::collections::VecDeque;

/// Listens on a port, and takes a link for each pass, in their order.
///
/// The jobs have room for all. Where the door fails, they have what was taken until then, and the other passes are let
/// go. It may wait for the programs that connect, and takes no memory.
pub(crate) fn take_links<D: Door>(
    door: &mut D,
    port: u16,
    passes: Vec<Pass>,
    jobs: &mut Vec<Job<D::Line>>,
) -> Result<(), Failed>
    requires door { HasRoomForLinks (length passes.items) (D.faults door.old) (D.given door.old) }
    requires room { (jobs.old.items ≡ []) × (vec_len passes ≤ vec_capacity jobs.old) }
    // The jobs have the passes, or, where the door failed, the first ones, and a link each that nothing went over.
    ensures all { OnOk result (passes_of jobs.new.items ≡ passes.items) }
    ensures first { (others : List KnownPass) × (passes.items ≡ passes_of jobs.new.items ++ others) }
    ensures ready { EachOf (IsUnservedJob D.Line.got D.Line.sent D.Line.faults D.Line.closes) jobs.new.items }
    // The door counts each link that it gave, and its failure; nothing came back.
    ensures given { D.given door.new ≡ D.given door.old + vec_len jobs.new }
    ensures faults { D.faults door.new ≡ D.faults door.old + failed_by result }
    ensures returned { D.returned door.new ≡ D.returned door.old }
    ensures hurt { D.hurt door.new ≡ D.hurt door.old }
    ensures used { D.used door.new ≡ D.used door.old }
    ensures capacity { vec_capacity jobs.new ≡ vec_capacity jobs.old }
{
    door.listen(port)?;
    let mut left = VecDeque::from_vec(passes);
    while let Some(pass) = left.pop_front() {
        let link = door.accept()?;
        jobs.push_reserved(Job {
            pass,
            link,
            outcome: None,
        });
    }
    Ok(())
}
