//! The workers of the links.
ghost use Rattle.std.specs.Prelude.{◌≡◌, ◌<◌, ℕ, length, slice_index_or};
ghost use Rattle.std.specs.Thread.{IsSync};
ghost use Rattle.link_run.specs.Worked.{Worked};

use crate::job::Job;
use edit_io::Link;
use peer_lock::SharedPeer;
use session_core::serve_link;
use std::alloc::Global;
use std::sync::Wait;
use std::thread;
use std::thread::Threads;

/// Serves the links of all jobs to their ends, each in a thread of its own. Where no thread can be had, those without
/// one are served one after the other.
pub(crate) fn serve_links<L: Link + Send, R: Threads + Wait + Sync>(
    rt: &R,
    alloc: Global,
    shared: &SharedPeer,
    jobs: &mut [Job<L>],
    validates: bool,
)
    requires { (i : ℕ) (d : _) → i < length jobs.old → (slice_index_or jobs.old i d).pass.table ≡ shared.now }
    ensures { (i : ℕ) (d : _) → i < length jobs.old
        → Worked L.got L.sent L.faults L.closes validates (slice_index_or jobs.old i d) (slice_index_or jobs.new i d) }
{
    let threads = jobs.len().max(1);
    thread::for_each_mut(
        rt,
        jobs,
        threads,
        &|_: usize, job: &mut Job<L>|
            requires { IsSync R.row × (job.now.pass.table ≡ shared.now) }
        {
            let Job {
                pass,
                link,
                outcome,
            } = job;
            *outcome = Some(serve_link(rt, alloc, shared, pass, link, validates));
        },
    );
}
