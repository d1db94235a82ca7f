//! The passes of a new shared peer.
ghost use Rattle.std.specs.Prelude.{◌≡◌, ◌≤◌, ◌<◌, [], IfOk};
ghost use Rattle.peer_lock.specs.Rule.{newcomer};
ghost use Rattle.peer_lock.specs.Dealt.{Dealt, Others};

use crate::limits::MAX_PASSES;
use crate::lock_table::LockTable;
use crate::pass::Pass;
use crate::recorder::Recorder;
use crate::rule::Deal;
use crate::view::View;
use atomic_table::{Seat, Table};
use element_name::NoMemory;
use std::alloc::Global;

/// The table of a fresh peer, with the one seat that it begins with.
pub(crate) fn open(alloc: Global, site: u16) -> Result<(LockTable, Seat<Recorder, View>), NoMemory>
    ensures { IfOk result (λ r. (r.1.table_id ≡ r.0.table.shared.table_id) × (r.1.me ≡ (newcomer 0 1 site, []))) }
{
    let mut slots = Vec::new(alloc);
    slots.push(Recorder::new(alloc, site)?)?;
    match Table::new(alloc, &[0, 0], slots, &site) {
        Ok((table, seat)) => Ok((LockTable { table }, seat)),
        Err(_) => Err(NoMemory),
    }
}

// All passes but the first, which keeps the seat.
fn others(
    lock: &LockTable,
    alloc: Global,
    seat: &mut Seat<Recorder, View>,
    site: u16,
    passes: u32,
) -> Result<Vec<Pass>, NoMemory>
    requires own { seat.old.table_id ≡ lock.now.table.shared.table_id }
    requires first { seat.old.me ≡ (newcomer 0 1 site, []) }
    requires few { (0 < passes) × (passes ≤ MAX_PASSES) }
    ensures own { seat.new.table_id ≡ seat.old.table_id }
    ensures ok { IfOk result (λ v. (seat.new.me ≡ (newcomer 0 passes site, [])) × Others lock.now.table.shared.table_id site passes v.items) }
{
    let mut rest = Vec::new(alloc);
    for number in 1..passes {
        let part = lock.table.shared.split_seat::<Deal>(seat);
        rest.push(Pass {
            seat: part,
            number,
            weight: 1,
            known: 0,
        })?;
    }
    Ok(rest)
}

/// The passes, numbered from 0, of which the first keeps the seat.
pub(crate) fn deal(
    lock: &LockTable,
    alloc: Global,
    mut seat: Seat<Recorder, View>,
    site: u16,
    passes: u32,
) -> Result<Vec<Pass>, NoMemory>
    requires own { seat.table_id ≡ lock.now.table.shared.table_id }
    requires first { seat.me ≡ (newcomer 0 1 site, []) }
    requires few { (0 < passes) × (passes ≤ MAX_PASSES) }
    ensures { IfOk result (λ v. Dealt lock.now.table.shared.table_id site passes v.items) }
{
    let mut rest = others(lock, alloc, &mut seat, site, passes)?;
    let mut all = Vec::new(alloc);
    all.push(Pass {
        seat,
        number: 0,
        weight: 1,
        known: 0,
    })?;
    all.append(&mut rest)?;
    Ok(all)
}
