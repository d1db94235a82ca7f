//! The verdicts, taken side by side.
ghost use Rattle.std.specs.Prelude.{◌≡◌, ◌≤◌, true, IfOk, map};
ghost use Rattle.retro_undo.specs.Undo.{have_elements};
ghost use Rattle.par_sweep.specs.Judged.{judgement_on};

use auth_match::{Verdict, request_verdict_lent};
use element_name::{Name, Places};
use policy_book::Policy;
use rayon::prelude::*;
use request_state::StateTable;
use std::alloc::{AllocError, Global};
use std::thread::Threads;

/// How often a thread has to ask whether an authorization matches, to be worth its start.
const ASKED: usize = 8_192;

/// How many requests are worth a thread whatever the policy is: each is looked up.
const LOOKED_UP: usize = 1_024;

/// The verdict on the request of a name.
#[derive(Clone, Copy, Debug)]
pub(crate) struct Judgement {
    pub(crate) id: Name,
    pub(crate) verdict: Verdict,
}

fn judge_one<P: Places>(id: Name, policy: &Policy, states: &StateTable, places: &P) -> Judgement
    requires { have_elements (P.names places.now) states.now ≡ true }
    ensures { result ≡ judgement_on (P.names places.now) policy.now states.now id }
{
    let verdict = match states.lent_request(id) {
        Some(request) => request_verdict_lent(policy, &request, places),
        None => Verdict::Granted,
    };
    Judgement { id, verdict }
}

/// How many requests are worth a thread of their own. Each asks the authorizations of the policy, one after another:
/// the more these are, the fewer requests.
pub(crate) fn share_len(policy: &Policy) -> usize
    ensures { result ≤ LOOKED_UP }
{
    (ASKED / (policy.auths() as usize + 1)).min(LOOKED_UP)
}

/// The judgements on the requests of the names, in the order of the names.
pub(crate) fn judge_each<P: Places + Sync, R: Threads + Sync>(
    rt: &R,
    alloc: Global,
    ids: &[Name],
    policy: &Policy,
    states: &StateTable,
    places: &P,
) -> Result<Vec<Judgement>, AllocError>
    requires { have_elements (P.names places.now) states.now ≡ true }
    ensures { IfOk result (λ judged. judged.items ≡ map (judgement_on (P.names places.now) policy.now states.now) ids.now) }
{
    ids.par_iter()
        .with_min_len(share_len(policy))
        .map(
            |id: &Name| -> Judgement
                requires { have_elements (P.names places.now) states.now ≡ true }
                ensures { result ≡ judgement_on (P.names places.entry.now) policy.entry.now states.entry.now id.now }
            { judge_one(*id, policy, states, places) },
        )
        .collect(rt, alloc)
}
