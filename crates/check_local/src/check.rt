//! The local check.
ghost use Rattle.std.specs.Prelude.{◌≡◌};
ghost use Rattle.auth_match.specs.Coverage.{IsJudged, names_with, judged_name};
ghost use Rattle.check_local.specs.Local.{local_verdict};

use auth_match::{Judged, Verdict, decide};
use coop_request::Right;
use element_name::Places;
use policy_book::Policy;

/// Whether the policy of a version allows an edit.
#[derive(Clone, Copy, Debug, PartialEq, Eq)]
pub enum LocalVerdict {
    Granted,
    /// At this version, by the authorization of this number, or since none matches.
    Denied { version: u32, by: Option<u32> },
}

/// The verdict of the policy, which is that of this version, on a user's right to the judged element.
///
/// It takes no memory, and costs what [`decide`] does.
pub fn check_local<P: Places>(
    policy: &Policy,
    version: u32,
    user: u16,
    right: Right,
    judged: Judged,
    places: &P,
) -> LocalVerdict
    requires { IsJudged (P.names places.now) judged }
    ensures { result ≡ local_verdict (names_with (P.names places.now) judged) policy.now version user right (judged_name judged) }
{
    match decide(policy, user, right, judged, places) {
        Verdict::Granted => LocalVerdict::Granted,
        Verdict::Denied { by } => LocalVerdict::Denied { version, by },
    }
}
