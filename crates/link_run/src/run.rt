//! All workers beside each other.
ghost use Rattle.std.specs.Prelude.{◌≡◌, ◌<◌, ℕ, vec_len, slice_index_or};
ghost use Rattle.std.specs.Thread.{IsSync};
ghost use Rattle.peer_lock.specs.Answers.{IsSame};
ghost use Rattle.link_run.specs.Worked.{MakesOwn, Worked};

use crate::job::Job;
use crate::own::{OwnEnd, make_own};
use crate::work::serve_links;
use edit_io::Link;
use peer_lock::{Pass, SharedPeer};
use peer_step::Step;
use std::alloc::Global;
use std::sync::Wait;
use std::thread::{Threads, join};

/// Makes the caller's own steps and serves the links of all jobs, at the same time, and gives the jobs back.
pub(crate) fn run_workers<L: Link + Send + Drop, R: Threads + Wait + Sync>(
    rt: &R,
    alloc: Global,
    shared: &SharedPeer,
    pass: Pass,
    steps: &[Step],
    jobs: Vec<Job<L>>,
    validates: bool,
) -> ((Pass, OwnEnd), Vec<Job<L>>)
    requires own { pass.table ≡ shared.now }
    requires theirs { (i : ℕ) (d : _) → i < vec_len jobs → (slice_index_or jobs.items i d).pass.table ≡ shared.now }
    ensures own { IsSame pass result.0.0 × MakesOwn pass.view result.0.0.view steps.now result.0.1 }
    ensures many { vec_len result.1 ≡ vec_len jobs }
    ensures each { (i : ℕ) (d : _) → i < vec_len jobs
        → Worked L.got L.sent L.faults L.closes validates (slice_index_or jobs.items i d) (slice_index_or result.1.items i d) }
{
    join(
        rt,
        || -> (Pass, OwnEnd)
            requires { IsSync R.row × (pass.table ≡ shared.now) }
            ensures { IsSame pass result.0 × MakesOwn pass.view result.0.view steps.entry.now result.1 }
        { make_own(rt, alloc, shared, pass, steps) },
        || -> Vec<Job<L>>
            requires { IsSync R.row
                × ((i : ℕ) (d : _) → i < vec_len jobs → (slice_index_or jobs.items i d).pass.table ≡ shared.now) }
            ensures many { vec_len result ≡ vec_len jobs }
            ensures each { (i : ℕ) (d : _) → i < vec_len jobs
                → Worked L.got L.sent L.faults L.closes validates (slice_index_or jobs.items i d) (slice_index_or result.items i d) }
        {
            let mut jobs = jobs;
            serve_links(rt, alloc, shared, jobs.as_mut_slice(), validates);
            jobs
        },
    )
}
