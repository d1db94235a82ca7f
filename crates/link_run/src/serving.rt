//! A peer that serves.
ghost use Rattle.std.specs.Prelude.{◌≡◌, ◌+◌, ◌≤◌, ◌<◌, [], length, IfOk};
ghost use Rattle.std.specs.Prelude.{vec_len, vec_capacity, true, false, sum_by};
ghost use Rattle.peer_lock.specs.declared.limits.TheConstants.{MAX_PASSES};
ghost use Rattle.peer_lock.specs.Rule.{newcomer};
ghost use Rattle.link_run.specs.Gathered.{EachOf};
ghost use Rattle.link_run.specs.Jobs.{passes_of};
ghost use Rattle.link_run.specs.Served.{HaveDealtPasses};
ghost use Rattle.link_run.specs.Taken.{HasRoomForLinks, IsUnservedJob};
ghost use Rattle.link_run.specs.Ends.{LedFrom, ServedAll, ServedNone, ServeEnds};
ghost use Rattle.link_run.specs.Counts.{failures_in, TookBack, LeavesDoor};

use crate::dealing::{deal_links, idle_peer};
use crate::ending::finish_jobs;
use crate::job::Job;
use crate::left::LinkRun;
use crate::run::run_workers;
use crate::taking::take_links;
use edit_io::Door;
use element_name::NoMemory;
use peer_core::Peer;
use peer_lock::{History, Pass, SharedPeer};
use peer_step::Step;
use session_core::SessionFault;
use std::alloc::Global;
use std::sync::Wait;
use std::thread::Threads;

// Makes the caller's own steps and serves the links of all jobs, beside each other, and gives the links back. Each goes on
// to its own end, whatever the others meet. It waits until all have ended.
fn serve_taken<D: Door, R: Threads + Wait + Sync>(
    rt: &R,
    alloc: Global,
    site: u16,
    shared: SharedPeer,
    pass: Pass,
    steps: &[Step],
    jobs: Vec<Job<D::Line>>,
    door: &mut D,
    outcomes: Vec<Option<Result<u32, SessionFault>>>,
) -> LinkRun
    requires own { (pass.table ≡ shared) × (pass.view ≡ newcomer 0 (vec_len jobs + 1) site) }
    requires theirs { HaveDealtPasses shared site jobs.items }
    requires ready { EachOf (IsUnservedJob D.Line.got D.Line.sent D.Line.faults D.Line.closes) jobs.items }
    requires given { D.returned door.old + vec_len jobs ≤ D.given door.old }
    requires room { (outcomes.items ≡ []) × (vec_len jobs ≤ vec_capacity outcomes) }
    ensures led { LedFrom site result }
    ensures ends { ServedAll D.Line.got D.Line.sent D.Line.faults D.Line.closes site (vec_len jobs) steps.now
        (D.used door.old) (D.used door.new) result.own result.links.items result.history.run }
    ensures whole { result.door_failed ≡ false }
    ensures back { TookBack D.faults D.given D.returned D.hurt door.old door.new (vec_len jobs)
        (sum_by failures_in result.links.items) }
{
    let mut outcomes = outcomes;
    let ((mut pass, own), jobs) = run_workers(rt, alloc, &shared, pass, steps, jobs, site == 0);
    finish_jobs(&shared, &mut pass, jobs, door, &mut outcomes);
    let (peer, history) = shared.close(pass);
    LinkRun {
        peer,
        history,
        own: Some(own),
        door_failed: false,
        links: outcomes,
    }
}

// Gives back the links that were taken before the door failed, and leaves an idle peer.
fn give_back<D: Door>(
    shared: &SharedPeer,
    pass: Pass,
    jobs: Vec<Job<D::Line>>,
    door: &mut D,
    outcomes: Vec<Option<Result<u32, SessionFault>>>,
    idle: (Peer, History),
) -> LinkRun
    requires own { pass.table ≡ shared.now }
    requires theirs { EachOf (λ k. k.table ≡ shared.now) (passes_of jobs.items) }
    requires newcomers { EachOf (λ k. k.view.made ≡ 0) (passes_of jobs.items) }
    requires ready { EachOf (IsUnservedJob D.Line.got D.Line.sent D.Line.faults D.Line.closes) jobs.items }
    requires given { D.returned door.old + vec_len jobs ≤ D.given door.old }
    requires room { (outcomes.items ≡ []) × (vec_len jobs ≤ vec_capacity outcomes) }
    requires idle { idle.1.run ≡ [] }
    ensures peer { (result.peer ≡ idle.0) × (result.history.site ≡ idle.1.site) }
    ensures ends { ServedNone D.Line.got D.Line.sent D.Line.faults D.Line.closes (vec_len jobs)
        (D.used door.old) (D.used door.new) result.own result.links.items result.history.run }
    ensures many { length result.links.items ≡ vec_len jobs }
    ensures failed { result.door_failed ≡ true }
    ensures back { TookBack D.faults D.given D.returned D.hurt door.old door.new (vec_len jobs)
        (sum_by failures_in result.links.items) }
{
    let mut pass = pass;
    let mut outcomes = outcomes;
    finish_jobs(shared, &mut pass, jobs, door, &mut outcomes);
    let (peer, history) = idle;
    LinkRun {
        peer,
        history,
        own: None,
        door_failed: true,
        links: outcomes,
    }
}

/// Serves so many links on a port, beside a list of own steps, on a peer of a site: it listens, takes all links, and
/// then makes the own steps and has a session on each link, on threads of their own. Site 0 validates. Each link that
/// the door gave is given back, in order.
///
/// Where the door fails, nothing is run, and the peer is a fresh one. Each session and the own steps go on to their own
/// end, whatever the others meet. It waits for the programs that connect, and then until all have ended. Fails where
/// there was no memory to begin with, and has not asked the door then; where memory was wanting later, the run tells so.
pub fn serve<D: Door, R: Threads + Wait + Sync>(
    rt: &R,
    alloc: Global,
    site: u16,
    port: u16,
    links: u32,
    steps: &[Step],
    door: &mut D,
) -> Result<LinkRun, NoMemory>
    requires few { links < MAX_PASSES }
    requires room { HasRoomForLinks links (D.faults door.old) (D.given door.old) }
    requires back { D.returned door.old ≤ D.given door.old }
    // The peer is what the run leads to.
    ensures led { IfOk result (LedFrom site) }
    // The own steps stand in the run, and those of the session on each link that came back; nothing is in it where the
    // door failed.
    ensures ends { IfOk result (λ r. ServeEnds D.Line.got D.Line.sent D.Line.faults D.Line.closes site links steps.now
        (D.used door.old) (D.used door.new) r.own r.door_failed r.links.items r.history.run) }
    // The door gave no more links than came back, and counts those that failed, and its own failure.
    ensures door { LeavesDoor D.faults D.given D.returned D.hurt D.used door.old door.new result }
{
    let (shared, pass, passes) = deal_links(alloc, site, links)?;
    let outcomes = Vec::with_capacity(alloc, links as usize)?;
    let mut jobs = Vec::with_capacity(alloc, links as usize)?;
    // All memory is taken before the first link is, so that none is lost.
    let idle = idle_peer(alloc, site)?;
    match take_links(door, port, passes, &mut jobs) {
        Ok(()) => {
            drop(idle);
            Ok(serve_taken(rt, alloc, site, shared, pass, steps, jobs, door, outcomes))
        }
        Err(_) => Ok(give_back(&shared, pass, jobs, door, outcomes, idle)),
    }
}
