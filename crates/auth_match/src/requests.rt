//! The verdict on a request.
ghost use Rattle.std.specs.Prelude.{◌≡◌, true};
ghost use Rattle.element_name.specs.Name.{has_name};
ghost use Rattle.coop_request.specs.Request.{element_of};
ghost use Rattle.auth_match.specs.Requests.{request_verdict};

use crate::matching::decide;
use crate::verdict::{Judged, Verdict};
use coop_request::{LentRequest, Request};
use element_name::Places;
use policy_book::Policy;

/// The verdict of a policy on a request whose element is there. Takes no memory, and the time of `decide`.
pub fn request_verdict<P: Places>(policy: &Policy, request: Request, places: &P) -> Verdict
    requires { has_name (P.names places.now) (element_of request) ≡ true }
    ensures { result ≡ request_verdict (P.names places.now) policy.now request }
{
    request_verdict_lent(policy, &request.lent(), places)
}

/// The same on a lent request.
pub fn request_verdict_lent<P: Places>(
    policy: &Policy,
    request: &LentRequest<'_>,
    places: &P,
) -> Verdict
    requires { has_name (P.names places.now) (element_of request.now) ≡ true }
    ensures { result ≡ request_verdict (P.names places.now) policy.now request.now }
{
    let judged = Judged::There(request.element());
    decide(policy, request.user(), request.right(), judged, places)
}
