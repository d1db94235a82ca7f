//! A peer that dials.
ghost use Rattle.std.specs.Prelude.{◌≡◌, ◌≤◌, ◌<◌, [], length, IfOk, vec_capacity, false, sum_by};
ghost use Rattle.edit_io.specs.Door.{HasRoom, IsUnused};
ghost use Rattle.peer_lock.specs.Answers.{ClosesRun};
ghost use Rattle.session_core.specs.Session.{pass_steps};
ghost use Rattle.link_run.specs.Passes.{IsSolePass};
ghost use Rattle.link_run.specs.Ends.{LedFrom, AloneEnds, DialEnds};
ghost use Rattle.link_run.specs.Counts.{failures_in, TookBack, LeavesDoor};

use crate::dealing::deal_one;
use crate::left::LinkRun;
use crate::own::{OwnEnd, make_own};
use edit_io::{Door, Failed};
use element_name::NoMemory;
use peer_lock::{Pass, SharedPeer};
use peer_step::Step;
use session_core::{SessionFault, dial_link};
use std::alloc::Global;
use std::sync::Wait;
use std::thread::Threads;

// Closes a shared peer whose own steps ended so.
fn close_alone(
    shared: SharedPeer,
    pass: Pass,
    own: OwnEnd,
    door_failed: bool,
    links: Vec<Option<Result<u32, SessionFault>>>,
) -> LinkRun
    requires own { pass.table ≡ shared }
    requires whole { length pass.view.numbers ≡ pass.view.made }
    ensures closes { ClosesRun pass.view result.peer result.history.run }
    ensures site { result.history.site ≡ pass.view.origin }
    ensures ends { (result.own ≡ Some own) × (result.door_failed ≡ door_failed) × (result.links.items ≡ links.items) }
{
    let (peer, history) = shared.close(pass);
    LinkRun {
        peer,
        history,
        own: Some(own),
        door_failed,
        links,
    }
}

// Has a session on a link that the door gave, and gives it back.
fn dial_over<D: Door, R: Threads + Wait + Sync>(
    rt: &R,
    alloc: Global,
    site: u16,
    rounds: u32,
    shared: SharedPeer,
    pass: Pass,
    link: D::Line,
    door: &mut D,
    outcomes: Vec<Option<Result<u32, SessionFault>>>,
) -> LinkRun
    requires own { IsSolePass shared site pass }
    requires unused { IsUnused (D.Line.faults link) (D.Line.closes link) (D.Line.got link) (D.Line.sent link) }
    requires given { D.returned door.old < D.given door.old }
    requires room { (outcomes.items ≡ []) × (0 < vec_capacity outcomes) }
    ensures led { LedFrom site result }
    ensures ends { DialEnds D.Line.got D.Line.sent D.Line.faults D.Line.closes site rounds (pass_steps pass)
        (D.used door.old) (D.used door.new) result.own result.door_failed result.links.items result.history.run }
    ensures whole { (result.door_failed ≡ false) × (length result.links.items ≡ 1) }
    ensures back { TookBack D.faults D.given D.returned D.hurt door.old door.new 1 (sum_by failures_in result.links.items) }
{
    let mut pass = pass;
    let mut link = link;
    let mut outcomes = outcomes;
    let ended = dial_link(rt, alloc, &shared, &mut pass, &mut link, rounds, site == 0);
    door.back(link);
    outcomes.push_reserved(Some(ended));
    close_alone(shared, pass, OwnEnd::Done, false, outcomes)
}

/// Makes the steps of a list on a peer of a site, and asks no door: for one whose steps can't all be had.
///
/// It takes the time of the steps, and the memory of the peer and of the run. Fails where there was no memory to begin
/// with; where memory was wanting later, the run tells so.
pub fn run_alone<R: Threads + Wait + Sync>(
    rt: &R,
    alloc: Global,
    site: u16,
    steps: &[Step],
) -> Result<LinkRun, NoMemory>
    ensures led { IfOk result (LedFrom site) }
    ensures ends { IfOk result (λ r. AloneEnds steps.now r.own r.door_failed r.links.items r.history.run) }
{
    let (shared, pass) = deal_one(alloc, site)?;
    let (pass, own) = make_own(rt, alloc, &shared, pass, steps);
    Ok(close_alone(shared, pass, own, false, Vec::new(alloc)))
}

/// Makes the steps of a list on a peer of a site, and then dials: it connects to a port, has a session of so many rounds
/// on the link, and gives the link back. Site 0 validates.
///
/// Where the own steps are cut, by a full run or for want of memory, it doesn't connect. It waits for the other side.
/// Fails where there was no memory to begin with, and has not asked the door then; where memory was wanting later, the
/// run tells so.
pub fn dial<D: Door, R: Threads + Wait + Sync>(
    rt: &R,
    alloc: Global,
    site: u16,
    port: u16,
    rounds: u32,
    steps: &[Step],
    door: &mut D,
) -> Result<LinkRun, NoMemory>
    requires room { HasRoom (D.faults door.old) (D.given door.old) }
    requires back { D.returned door.old ≤ D.given door.old }
    // The peer is what the run leads to.
    ensures led { IfOk result (LedFrom site) }
    // The own steps stand in the run, and behind them those of the session on the link that came back.
    ensures ends { IfOk result (λ r. DialEnds D.Line.got D.Line.sent D.Line.faults D.Line.closes site rounds steps.now
        (D.used door.old) (D.used door.new) r.own r.door_failed r.links.items r.history.run) }
    // The door gave no more links than came back, and counts those that failed, and its own failure.
    ensures door { LeavesDoor D.faults D.given D.returned D.hurt D.used door.old door.new result }
{
    let (shared, pass) = deal_one(alloc, site)?;
    let outcomes = Vec::with_capacity(alloc, 1)?;
    let (pass, own) = make_own(rt, alloc, &shared, pass, steps);
    match own {
        OwnEnd::Done => match door.connect(port) {
            Ok(link) => Ok(dial_over(rt, alloc, site, rounds, shared, pass, link, door, outcomes)),
            Err(Failed) => Ok(close_alone(shared, pass, own, true, outcomes)),
        },
        OwnEnd::RunFull | OwnEnd::NoMemory => {
            Ok(close_alone(shared, pass, own, false, outcomes))
        }
    }
}
