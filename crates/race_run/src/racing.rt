//! The race of three workers.
ghost use Rattle.std.specs.Prelude.{◌≡◌, ◌+◌, ◌≤◌, IfOk, length};
ghost use Rattle.std.specs.Thread.{IsSync};
ghost use Rattle.peer_core.specs.Peer.{fresh_peer};
ghost use Rattle.peer_lock.specs.declared.limits.TheConstants.{MAX_RUN};
ghost use Rattle.peer_lock.specs.Answers.{IsSame};
ghost use Rattle.peer_lock.specs.Rule.{newcomer};
ghost use Rattle.peer_lock.specs.Run.{peer_after_run};
ghost use Rattle.race_run.specs.Race.{IsRaceOf};
ghost use Rattle.race_run.specs.Work.{Works};

use crate::gate::Gate;
use crate::working::{Ended, work};
use element_name::NoMemory;
use peer_core::Peer;
use peer_lock::{History, Pass, SharedPeer};
use peer_step::PackedStep;
use std::alloc::Global;
use std::sync::Wait;
use std::thread::{Threads, join};

// A shared peer with three passes.
fn start(alloc: Global, site: u16) -> Result<(SharedPeer, Pass, Pass, Pass), NoMemory>
    ensures zero { IfOk result (λ r. (r.1.table ≡ r.0) × (r.1.view ≡ newcomer 0 3 site)) }
    ensures one { IfOk result (λ r. (r.2.table ≡ r.0) × (r.2.view ≡ newcomer 1 0 site)) }
    ensures two { IfOk result (λ r. (r.3.table ≡ r.0) × (r.3.view ≡ newcomer 2 0 site)) }
{
    let (shared, mut passes) = SharedPeer::new(alloc, site, 3)?;
    let Some(two) = passes.pop() else {
        unreachable!()
    };
    let Some(one) = passes.pop() else {
        unreachable!()
    };
    let Some(zero) = passes.pop() else {
        unreachable!()
    };
    Ok((shared, zero, one, two))
}

// Two workers, each on a thread of its own.
fn work_beside<R: Threads + Wait + Sync, G: Gate + Sync>(
    rt: &R,
    alloc: Global,
    shared: &SharedPeer,
    one: Pass,
    two: Pass,
    arrivals: &[PackedStep],
    operations: &[PackedStep],
    gate: &G,
) -> ((Pass, Ended), (Pass, Ended))
    requires one { one.table ≡ shared.now }
    requires two { two.table ≡ shared.now }
    requires few_arrivals { length arrivals.now ≤ MAX_RUN }
    requires few_operations { length operations.now ≤ MAX_RUN }
    ensures one { IsSame one result.0.0 × Works one.view result.0.0.view arrivals.now result.0.1 }
    ensures two { IsSame two result.1.0 × Works two.view result.1.0.view operations.now result.1.1 }
{
    join(
        rt,
        || -> (Pass, Ended)
            requires { IsSync R.row × (one.table ≡ shared.now) × (length arrivals.now ≤ MAX_RUN) }
            ensures { IsSame one result.0 × Works one.view result.0.view arrivals.entry.now result.1 }
        { work(rt, alloc, shared, one, arrivals, gate) },
        || -> (Pass, Ended)
            requires { IsSync R.row × (two.table ≡ shared.now) × (length operations.now ≤ MAX_RUN) }
            ensures { IsSame two result.0 × Works two.view result.0.view operations.entry.now result.1 }
        { work(rt, alloc, shared, two, operations, gate) },
    )
}

// Three workers, each on a thread of its own.
fn race_lists<R: Threads + Wait + Sync, G: Gate + Sync>(
    rt: &R,
    alloc: Global,
    site: u16,
    edits: &[PackedStep],
    arrivals: &[PackedStep],
    operations: &[PackedStep],
    gate: &G,
) -> Result<(Peer, History), NoMemory>
    requires { length edits.now + length arrivals.now + length operations.now ≤ MAX_RUN }
    ensures run { IfOk result (λ r. IsRaceOf edits.now arrivals.now operations.now r.1.run) }
    ensures site { IfOk result (λ r. r.1.site ≡ site) }
    ensures peer { IfOk result (λ r. r.0 ≡ peer_after_run (fresh_peer site) r.1.run) }
{
    let (shared, zero, one, two) = start(alloc, site)?;
    let (zero, others) = join(
        rt,
        || -> (Pass, Ended)
            requires { IsSync R.row × (zero.table ≡ shared) × (length edits.now ≤ MAX_RUN) }
            ensures { IsSame zero result.0 × Works zero.view result.0.view edits.entry.now result.1 }
        { work(rt, alloc, &shared, zero, edits, gate) },
        || -> ((Pass, Ended), (Pass, Ended))
            requires { IsSync R.row × IsSync G.row × (one.table ≡ shared) × (two.table ≡ shared)
                × (length arrivals.now ≤ MAX_RUN) × (length operations.now ≤ MAX_RUN) }
            ensures one { IsSame one result.0.0 × Works one.view result.0.0.view arrivals.entry.now result.0.1 }
            ensures two { IsSame two result.1.0 × Works two.view result.1.0.view operations.entry.now result.1.1 }
        { work_beside(rt, alloc, &shared, one, two, arrivals, operations, gate) },
    );
    let (mut zero, zero_ended) = zero;
    let ((one, one_ended), (two, two_ended)) = others;
    shared.join(&mut zero, one);
    shared.join(&mut zero, two);
    let (peer, history) = shared.close(zero);
    if let Ended::Full = zero_ended {
        unreachable!();
    }
    if let Ended::Full = one_ended {
        unreachable!();
    }
    if let Ended::Full = two_ended {
        unreachable!();
    }
    match (zero_ended, one_ended, two_ended) {
        (Ended::Done, Ended::Done, Ended::Done) => Ok((peer, history)),
        _ => {
            drop(peer);
            Err(NoMemory)
        }
    }
}

/// Runs three lists of steps by three workers on threads of their own, over one shared peer of a site: worker 0 the
/// edits, worker 1 the arrivals, worker 2 the operations, each in its order. The peer and the run are given once all
/// have ended.
///
/// It takes the time of all steps, of which one is made at a time, and the memory of the peer and of the run. How the
/// lists are mixed is left to the threads. Fails where memory was wanting in one of the workers.
pub fn race<R: Threads + Wait + Sync, G: Gate + Sync>(
    rt: &R,
    alloc: Global,
    site: u16,
    edits: Vec<PackedStep>,
    arrivals: Vec<PackedStep>,
    operations: Vec<PackedStep>,
    gate: &G,
) -> Result<(Peer, History), NoMemory>
    requires { length edits.items + length arrivals.items + length operations.items ≤ MAX_RUN }
    ensures run { IfOk result (λ r. IsRaceOf edits.items arrivals.items operations.items r.1.run) }
    ensures site { IfOk result (λ r. r.1.site ≡ site) }
    ensures peer { IfOk result (λ r. r.0 ≡ peer_after_run (fresh_peer site) r.1.run) }
{
    race_lists(rt, alloc, site, &edits, &arrivals, &operations, gate)
}
