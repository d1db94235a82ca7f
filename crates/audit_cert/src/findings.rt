//! The state of a request and its grants, by the policies of the versions at which another authorization may match first.
ghost use Rattle.std.specs.Prelude.{◌≡◌, ◌≤◌, ◌<◌, ◌+◌, ◌-◌, ℕ, true, Some, None, map, length, IfOk, IfErr};
ghost use Rattle.std.specs.List.{range_with_len};
ghost use Rattle.element_name.specs.Cases.{first_of};
ghost use Rattle.element_name.specs.Name.{has_name};
ghost use Rattle.coop_request.specs.Request.{user_of, element_of};
ghost use Rattle.admin_log.specs.Log.{policy_at, validated_at};
ghost use Rattle.check_remote.specs.State.{denial_at, denial_by, first_denial, state_by, state_of, judged_versions};
ghost use Rattle.audit_cert.specs.Grants.{granting_at, put_in_front, grants_over, grants_of};
ghost use Rattle.audit_cert.specs.Rematches.{IsRematchTable};

use crate::grant::{Grant, go_on, range_end};
use crate::granting::granting_auth;
use crate::judging::Judging;
use admin_log::AdminLog;
use auth_match::{Verdict, request_verdict};
use coop_request::Request;
use element_name::{NoMemory, Places};
use policy_book::Policy;
use request_state::State;
use std::alloc::Global;

/// The state of a request, and its grants, ascending.
#[derive(Drop)]
pub(crate) struct Findings {
    pub(crate) state: State,
    pub(crate) grants: Vec<Grant>,
}

// The state of a request by the verdict of a version, where those before it grant, and those behind it say the same.
fn state_by(log: &AdminLog, request: Request, version: u32, verdict: Verdict) -> State
    ensures { result ≡ state_by (denial_by version verdict) (validated_at log.now request.id) }
{
    match (verdict, log.validated(request.id())) {
        (Verdict::Denied { by }, _) => State::Invalid { at: version, by },
        (Verdict::Granted, Some(at)) => State::Valid { at },
        (Verdict::Granted, None) => State::Tentative,
    }
}

// The number of the authorization that grants a request of another user than 0 by the policy of a version. Where none
// does, the state of the request, if each version before that one grants it.
fn judge<P: Places>(
    judging: &Judging<'_, P>,
    request: Request,
    at: u32,
    policy: &Policy,
) -> Result<u32, State>
    requires other { 0 < user_of request }
    requires policy { policy.now ≡ policy_at judging.now.log.now at }
    requires element { has_name (P.names judging.now.places.now) (element_of request) ≡ true }
    ensures granted { IfOk result (λ by. granting_at (P.names judging.now.places.now) judging.now.log.now request at ≡ Some by) }
    ensures denied { IfErr result (λ _. granting_at (P.names judging.now.places.now) judging.now.log.now request at ≡ None) }
    ensures state { let denials = denial_at (P.names judging.now.places.now) judging.now.log.now request in
        IfErr result (λ state. (end : ℕ) → at < end
        → first_denial (P.names judging.now.places.now) judging.now.log.now request ≡ first_of (map denials (range_with_len at (end - at)))
        → state ≡ state_of (P.names judging.now.places.now) judging.now.log.now request) }
{
    let Judging { log, places, .. } = *judging;
    match granting_auth(places, policy, request) {
        Some(by) => Ok(by),
        None => {
            let verdict = request_verdict(policy, request, places);
            Err(state_by(log, request, at, verdict))
        }
    }
}

// The versions from the first on, up to where another authorization than the one that grants that one may match.
fn run_from<P: Places>(
    judging: &Judging<'_, P>,
    request: Request,
    first: u32,
    end: u32,
    by: u32,
) -> Grant
    requires table { IsRematchTable judging.now.log.now judging.now.table.now }
    requires other { 0 < user_of request }
    requires some { first < end }
    requires within { end ≤ length judging.now.log.now + 1 }
    requires granted { granting_at (P.names judging.now.places.now) judging.now.log.now request first ≡ Some by }
    ensures some { first ≤ result.to }
    ensures within { result.to < end }
    ensures state { let denials = denial_at (P.names judging.now.places.now) judging.now.log.now request in
        first_of (map denials (range_with_len first (end - first))) ≡ first_of (map denials (range_with_len (result.to + 1) (end - (result.to + 1)))) }
    ensures grants { let granting = granting_at (P.names judging.now.places.now) judging.now.log.now request in
        put_in_front result (grants_over granting (range_with_len (result.to + 1) (end - (result.to + 1)))) ≡ grants_over granting (range_with_len first (end - first)) }
{
    let next = judging.table.next(request.user(), first + 1, end);
    Grant {
        from: first,
        to: next - 1,
        by,
    }
}

// What is found of a request that the authorization of the number `by` grants at the version that it carries, by whose
// policy.
fn walk<P: Places>(
    alloc: Global,
    judging: &Judging<'_, P>,
    request: Request,
    mut policy: Policy,
    by: u32,
) -> Result<Findings, NoMemory>
    requires table { IsRematchTable judging.now.log.now judging.now.table.now }
    requires other { 0 < user_of request }
    requires carried { request.version ≤ length judging.now.log.now }
    requires policy { policy ≡ policy_at judging.now.log.now request.version }
    requires granted { granting_at (P.names judging.now.places.now) judging.now.log.now request request.version ≡ Some by }
    requires element { has_name (P.names judging.now.places.now) (element_of request) ≡ true }
    ensures state { IfOk result (λ found. found.state ≡ state_of (P.names judging.now.places.now) judging.now.log.now request) }
    ensures grants { let granting = granting_at (P.names judging.now.places.now) judging.now.log.now request in
        IfOk result (λ found. found.grants.items ≡ grants_over granting (judged_versions judging.now.log.now request)) }
{
    let log = judging.log;
    let mut grants = Vec::new(alloc);
    let end = range_end(log, request);
    // The version of the policy.
    let mut at = request.version();
    let mut current = run_from(judging, request, at, end, by);
    let mut next = current.to + 1;
    while next < end {
        log.advance(&mut policy, at, next)?;
        at = next;
        let by = match judge(judging, request, at, &policy) {
            Ok(by) => by,
            Err(state) => {
                grants.push(current)?;
                return Ok(Findings { state, grants });
            }
        };
        let run = run_from(judging, request, at, end, by);
        next = run.to + 1;
        go_on(&mut grants, &mut current, run)?;
    }
    let granted = state_by(log, request, at, Verdict::Granted);
    grants.push(current)?;
    Ok(Findings {
        state: granted,
        grants,
    })
}

/// What is found of a request by one walk: its state by the verdict of the version that it carries and of each at which
/// another authorization may match first, up to the first that denies, and its grants.
///
/// Takes a policy and 12 bytes a grant, and time in these versions, for each that of its way from the one before, of its
/// policy's authorizations and of a look-up in the table. Fails where memory is wanting.
pub(crate) fn findings_of<P: Places>(
    alloc: Global,
    judging: &Judging<'_, P>,
    request: Request,
) -> Result<Findings, NoMemory>
    requires table { IsRematchTable judging.now.log.now judging.now.table.now }
    requires carried { request.version ≤ length judging.now.log.now }
    requires element { has_name (P.names judging.now.places.now) (element_of request) ≡ true }
    ensures state { IfOk result (λ found. found.state ≡ state_of (P.names judging.now.places.now) judging.now.log.now request) }
    ensures grants { IfOk result (λ found. found.grants.items ≡ grants_of (P.names judging.now.places.now) judging.now.log.now request) }
{
    let log = judging.log;
    let at = request.version();
    if request.user() == 0 {
        let granted = state_by(log, request, at, Verdict::Granted);
        return Ok(Findings {
            state: granted,
            grants: Vec::new(alloc),
        });
    }
    let policy = log.policy_at(at)?;
    match judge(judging, request, at, &policy) {
        Ok(by) => walk(alloc, judging, request, policy, by),
        Err(state) => {
            let grants = Vec::new(alloc);
            Ok(Findings { state, grants })
        }
    }
}
