//! The authorization that grants a request by one policy.
ghost use Rattle.std.specs.Prelude.{◌≡◌, true};
ghost use Rattle.element_name.specs.Name.{has_name};
ghost use Rattle.coop_request.specs.Request.{element_of};
ghost use Rattle.audit_cert.specs.Grants.{granting_auth};

use auth_match::{Judged, first_match};
use coop_request::Request;
use element_name::Places;
use policy_book::Policy;

/// The number of the authorization that grants the request by this policy, if one does: of the first that matches.
///
/// Takes no memory, and the time of [`first_match`].
pub(crate) fn granting_auth<P: Places>(places: &P, policy: &Policy, request: Request) -> Option<u32>
    requires { has_name (P.names places.now) (element_of request) ≡ true }
    ensures { result ≡ granting_auth (P.names places.now) policy.now request }
{
    let judged = Judged::There(request.element());
    match first_match(policy, request.user(), request.right(), judged, places) {
        Some(a) if a.auth.get().grant => Some(a.number),
        _ => None,
    }
}
