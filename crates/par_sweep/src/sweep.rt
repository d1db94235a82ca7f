//! The sweep on several threads.
ghost use Rattle.std.specs.Prelude.{◌≡◌, true, IfSome, IsTrue, None, map};
ghost use Rattle.element_name.specs.Name.{start};
ghost use Rattle.coop_request.specs.Request.{Request};
ghost use Rattle.request_state.specs.Table.{kept_of, is_in_order};
ghost use Rattle.retro_undo.specs.Undo.{have_elements, are_reached};
ghost use Rattle.retro_undo.specs.Sweep.{every_request, MaySweep, IsSwept};
ghost use Rattle.retro_undo.specs.Listed.{taken_within};
ghost use Rattle.par_sweep.specs.Judged.{judgement_on};

use crate::judging::{Judgement, judge_each, share_len};
use crate::setting::carry_out;
use element_name::Places;
use policy_book::{Policy, Reach};
use request_state::{StateTable, Undone};
use retro_undo::{Taken, below_all, list_reach, sweep_reach};
use std::alloc::Global;
use std::thread::Threads;

// The judgements on the Tentative requests within the reach; none where these are few, or memory is wanting.
fn judge_reach<P: Places + Sync, R: Threads + Sync>(
    rt: &R,
    alloc: Global,
    reach: &Reach,
    policy: &Policy,
    states: &StateTable,
    places: &P,
) -> Option<Vec<Judgement>>
    requires { have_elements (P.names places.now) states.now ≡ true }
    ensures judged { IfSome result (λ judged. judged.items
        ≡ map (judgement_on (P.names places.now) policy.now states.now) (taken_within (λ (q : Request). q.id) reach.now states.now)) }
    ensures in_order { IfSome result (λ judged. IsTrue (is_in_order states.now)) }
    ensures no_start { IfSome result (λ judged. kept_of states.now start ≡ None) }
{
    // Where no request is Tentative there is none to list.
    states.next_tentative_lent(below_all(states))?;
    let ids = list_reach(alloc, Taken::Id, reach, states).ok()?;
    if ids.len() < 2 * share_len(policy) {
        return None;
    }
    judge_each(rt, alloc, ids.as_slice(), policy, states, places).ok()
}

/// Undoes each Tentative request that the policy of a new version denies, and says how many, as `sweep_reach` does.
///
/// The verdicts are taken on as many threads as there are processors, before anything is changed: a change of a
/// state or of what counts changes no verdict. What is denied is then undone on the caller's thread. Where there are
/// few requests, or no memory for the list or the verdicts, `sweep_reach` does it all. Takes for a while 16 bytes for
/// each Tentative request within the reach and 32 for its verdict, and up to twice that while lists grow and are joined.
pub fn par_sweep<P: Places + Sync, R: Threads + Sync>(
    rt: &R,
    alloc: Global,
    reach: Reach,
    policy: &Policy,
    version: u32,
    states: &mut StateTable,
    places: &P,
) -> Undone
    requires tables { MaySweep (P.names places.now) states.old }
    requires outside { are_reached reach (P.names places.now) policy.now states.old ≡ true }
    ensures { IsSwept every_request (P.names places.now) policy.now version states.old states.new result.count }
{
    let Some(judged) = judge_reach(rt, alloc, &reach, policy, states, places) else {
        return sweep_reach(reach, policy, version, states, places);
    };
    let mut count = 0;
    for judgement in judged.as_slice() {
        count += u32::from(carry_out(judgement, version, states));
    }
    Undone { count }
}
