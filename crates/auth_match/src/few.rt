//! The first of a few authorizations that matches, with nothing noted.
ghost use Rattle.std.specs.Prelude.{◌≡◌, true, find};
ghost use Rattle.std.specs.List.{list_any};
ghost use Rattle.std.specs.Option.{option_copied};
ghost use Rattle.policy_book.specs.Policy.{is_user, is_member};
ghost use Rattle.auth_match.specs.Coverage.{IsJudged};
ghost use Rattle.auth_match.specs.Verdict.{has_user, object_covers_judged, matches_access};

use crate::coverage::covers_judged;
use crate::right::HasRight;
use crate::verdict::{Access, Judged};
use element_name::Places;
use policy_book::{Auth, NumberedAuth, Policy, UserSet};

/// How many authorizations are asked with nothing noted at most. All that these list, 16 groups and 16 objects each, is less
/// than the groups and the objects that a policy may have.
pub(crate) const FEW: usize = 8;

// Whether the user is a member of one of the groups.
fn any_has_user(policy: &Policy, user: u16, groups: &[u16]) -> bool
    ensures { result ≡ list_any (λ g. is_member policy.now g user) groups.now }
{
    for group in groups {
        if policy.member(*group, user) {
            return true;
        }
    }
    false
}

// Whether the set speaks of the user.
fn speaks_of(policy: &Policy, user: u16, set: &UserSet) -> bool
    ensures { result ≡ has_user policy.now set.now user }
{
    match set {
        UserSet::All => true,
        UserSet::Listed(users) => users.has(user),
        UserSet::Groups(groups) => any_has_user(policy, user, groups.as_slice()),
    }
}

// Whether the object covers the judged element.
fn covers_by<P: Places>(places: &P, policy: &Policy, judged: &Judged, object: u16) -> bool
    requires { IsJudged (P.names places.now) judged.now }
    ensures { result ≡ object_covers_judged (P.names places.now) policy.now judged.now object }
{
    match policy.extent(object) {
        Some(extent) => covers_judged(places, extent, *judged),
        None => false,
    }
}

// Whether one of the objects covers the judged element.
fn any_covers_by<P: Places>(places: &P, policy: &Policy, judged: &Judged, objects: &[u16]) -> bool
    requires { IsJudged (P.names places.now) judged.now }
    ensures { result ≡ list_any (object_covers_judged (P.names places.now) policy.now judged.now) objects.now }
{
    for object in objects {
        if covers_by(places, policy, judged, *object) {
            return true;
        }
    }
    false
}

// Whether the authorization matches the access. Its objects are asked last.
fn matches_alone<P: Places>(places: &P, policy: &Policy, access: &Access, auth: &Auth) -> bool
    requires user { is_user policy.now access.now.user ≡ true }
    requires judged { IsJudged (P.names places.now) access.now.judged }
    ensures { result ≡ matches_access (P.names places.now) policy.now access.now auth.now }
{
    auth.rights.has(access.right)
        && speaks_of(policy, access.user, &auth.users)
        && any_covers_by(places, policy, &access.judged, auth.objects.as_slice())
}

/// The first of the authorizations that matches the access. What several of them list is asked for each of them.
pub(crate) fn first_of_few<'a, P: Places>(
    places: &P,
    policy: &Policy,
    access: &Access,
    auths: &'a [NumberedAuth],
) -> Option<&'a NumberedAuth>
    requires user { is_user policy.now access.now.user ≡ true }
    requires judged { IsJudged (P.names places.now) access.now.judged }
    ensures { option_copied result ≡ find (λ a. matches_access (P.names places.now) policy.now access.now a.auth) auths.now }
{
    for a in auths {
        if matches_alone(places, policy, access, a.auth.get()) {
            return Some(a);
        }
    }
    None
}
