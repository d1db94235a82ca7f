//! What is kept of a journal, with one more entry.
ghost use Rattle.std.specs.Prelude.{◌≡◌, ◌<◌, ◌≤◌, ℕ, ◌∷◌, ◌++◌, [], List, None, map, OnOk, OnErr, IfOk, IsTrue};
ghost use Rattle.tomb_seq.specs.Slots.{marked_among};
ghost use Rattle.coop_request.specs.Request.{Request};
ghost use Rattle.policy_book.specs.Entry.{is_entry};
ghost use Rattle.admin_log.specs.Log.{push_fault};
ghost use Rattle.peer_tables.specs.Awaiting.{validated_by};
ghost use Rattle.peer_tables.specs.Kept.{AreTablesOf, AreKnown, IsAdvancing, states_confirmed};
ghost use Rattle.request_state.specs.Table.{kept_shows};
ghost use Rattle.peer_tables.specs.Derived.{undone_between};

use crate::join::ByCells;
use crate::sweep::Sweep;
use admin_log::{AdminLog, LogFault};
use element_name::{Name, NoMemory};
use policy_book::{AdminOp, Entry};
use request_state::{State, StateTable, Undone};
use retro_undo::{Taken, list_reach};
use std::alloc::Global;
use tomb_seq::TombSeq;

/// The request that the operation validates.
pub fn validated_by(op: &AdminOp) -> Option<Name>
    ensures { result ≡ validated_by op.now }
{
    match op {
        AdminOp::Validate(id) => Some(*id),
        _ => None,
    }
}

// The request that the entry validates is Valid if it was Tentative.
fn confirm(states: &mut StateTable, validated: Option<Name>, version: u32)
    ensures { states.new ≡ states_confirmed validated version states.old }
{
    let Some(id) = validated else {
        return;
    };
    if let Some(State::Tentative) = states.state(id) {
        states.set(id, State::Valid { at: version });
    }
}

fn push(log: &mut AdminLog, entry: Entry) -> Result<(), NoMemory>
    requires { push_fault log.old entry ≡ None }
    ensures ok { OnOk result (log.new ≡ log.old ++ entry ∷ []) }
    ensures unchanged { OnErr result (log.new ≡ log.old) }
{
    match log.push(entry) {
        Ok(()) => Ok(()),
        Err(LogFault::NoMemory) => Err(NoMemory),
        Err(_) => unreachable!(),
    }
}

// Where anything was undone, these elements are marked by whether their cells show.
fn mark_undone(seq: &mut TombSeq, states: &StateTable, elements: &[Name], count: u32)
    ensures marked { 0 < count → seq.new ≡ map (marked_among elements.now (kept_shows states.now)) seq.old }
    ensures unmarked { count ≤ 0 → seq.new ≡ seq.old }
{
    if count > 0 {
        seq.mark_these(elements, &ByCells(states));
    }
}

/// Puts an entry last, confirms what it validates, undoes what its policy denies, and if it undid anything marks
/// the elements of the requests that were judged. Fails before anything is changed.
pub(crate) fn advance<W: Sweep>(
    alloc: Global,
    log: &mut AdminLog,
    seq: &mut TombSeq,
    states: &mut StateTable,
    entry: Entry,
    sweep: &W,
) -> Result<Undone, NoMemory>
    requires { IsAdvancing log.old seq.old states.old entry }
    ensures formed { OnOk result (IsTrue (is_entry entry)) }
    ensures log { OnOk result (log.new ≡ log.old ++ entry ∷ []) }
    ensures kept { OnOk result ((R : List Request) (stamp : ℕ) → AreTablesOf R log.old seq.old states.old stamp → AreKnown R log.old
        → AreTablesOf R log.new seq.new states.new stamp) }
    ensures undone { IfOk result (λ undone. (R : List Request) (stamp : ℕ) → AreTablesOf R log.old seq.old states.old stamp → AreKnown R log.old
        → undone.count ≡ undone_between R log.old log.new) }
    ensures same_log { OnErr result (log.new ≡ log.old) }
    ensures same_seq { OnErr result (seq.new ≡ seq.old) }
    ensures same_states { OnErr result (states.new ≡ states.old) }
{
    let version = entry.version();
    let reach = log.policy().narrowed_reach(entry.op());
    let validated = validated_by(entry.op());
    let elements = list_reach(alloc, Taken::Element, &reach, states)?;
    push(log, entry)?;
    confirm(states, validated, version);
    let undone = sweep.sweep(reach, log.policy(), version, states, seq);
    mark_undone(seq, states, &elements, undone.count);
    Ok(undone)
}
