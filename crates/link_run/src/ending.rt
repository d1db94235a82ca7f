//! What is done once all workers have ended.
ghost use Rattle.std.specs.Prelude.{◌≡◌, ◌+◌, ◌≤◌, ◌++◌, vec_len, vec_capacity};
ghost use Rattle.edit_io.specs.Link.{with_last};
ghost use Rattle.link_run.specs.Gathered.{EachOf, JoinsAll};
ghost use Rattle.link_run.specs.Jobs.{passes_of, links_of, outcomes_of};
ghost use Rattle.link_run.specs.Taken.{hurt_among};
ghost use Rattle.link_run.specs.Counts.{TookBack};

use crate::job::Job;
use edit_io::Door;
use peer_lock::{Pass, SharedPeer};
use session_core::SessionFault;
use std::collections::VecDeque;

/// Joins the passes of all jobs to this one, gives their links back in their order, and notes how their sessions
/// ended. It takes no memory and time in the number of jobs, and waits for nobody but the door.
pub(crate) fn finish_jobs<D: Door>(
    shared: &SharedPeer,
    pass: &mut Pass,
    jobs: Vec<Job<D::Line>>,
    door: &mut D,
    outcomes: &mut Vec<Option<Result<u32, SessionFault>>>,
)
    requires own { pass.old.table ≡ shared.now }
    requires theirs { EachOf (λ k. k.table ≡ shared.now) (passes_of jobs.items) }
    requires newcomers { EachOf (λ k. k.view.made ≡ 0) (passes_of jobs.items) }
    requires given { D.returned door.old + vec_len jobs ≤ D.given door.old }
    requires room { vec_len outcomes.old + vec_len jobs ≤ vec_capacity outcomes.old }
    ensures joined { JoinsAll pass.old (passes_of jobs.items) pass.new }
    ensures used { D.used door.new ≡ with_last (D.used door.old) (links_of jobs.items) }
    ensures back { TookBack D.faults D.given D.returned D.hurt door.old door.new (vec_len jobs)
        (hurt_among D.Line.faults (links_of jobs.items)) }
    ensures outcomes { outcomes.new.items ≡ outcomes.old.items ++ outcomes_of jobs.items }
{
    let mut left = VecDeque::from_vec(jobs);
    while let Some(job) = left.pop_front() {
        let Job {
            pass: other,
            link,
            outcome,
        } = job;
        shared.join(pass, other);
        door.back(link);
        outcomes.push_reserved(outcome);
    }
}
