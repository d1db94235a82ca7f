//! Whether a peer is a renewal of another.
ghost use Rattle.std.specs.Prelude.{◌≡◌, [], ◌∷◌, ◌++◌, map, IfOk, IfSome, IsTrue};
ghost use Rattle.std.specs.List.{concat, list_all};
ghost use Rattle.edit_message.specs.Message.{key_of};
ghost use Rattle.peer_core.specs.Peer.{text};
ghost use Rattle.peer_renewal.specs.Coverage.{front_policy, covered_bytes, kept_objects};
ghost use Rattle.peer_renewal.specs.Renewal.{coverings, is_administrators, IsRenewalOf};

use crate::bits::are_same_bits;
use crate::coverage::{covered_bytes, is_kept};
use edit_message::Key;
use element_name::NoMemory;
use peer_core::Peer;
use policy_book::{Extent, Group, NumberedAuth, Object};
use std::alloc::Global;

// Whether the key is an entry's, or that of a request of the administrator's.
fn is_administrators(key: Key) -> bool
    ensures { result ≡ is_administrators key }
{
    match key {
        Key::Coop(name) => name.site() == 0,
        Key::Admin(_) => true,
    }
}

// Whether all requests are the administrator's.
#[tactic(auto, using(crate::proofs::LikeLemmas::all_more))]
fn has_no_other_author(peer: &Peer) -> bool
    ensures { IsTrue result → IsTrue (list_all (λ m. is_administrators (key_of m)) peer.now.journal) }
{
    for place in 0..peer.journal_len() {
        let Some(item) = peer.journal(place) else {
            return false;
        };
        if !is_administrators(item.key()) {
            return false;
        }
    }
    true
}

fn is_same_group(group: &Group, other: &Group) -> bool
    ensures { IsTrue result → group.now ≡ other.now }
{
    group.number == other.number && group.members.as_slice() == other.members.as_slice()
}

fn are_same_groups(groups: &[Group], others: &[Group]) -> bool
    ensures { IsTrue result → groups.now ≡ others.now }
{
    if groups.len() != others.len() {
        return false;
    }
    for place in 0..groups.len() {
        if !is_same_group(&groups[place], &others[place]) {
            return false;
        }
    }
    true
}

// Whether the authorizations are the same in order, whatever versions made them.
fn are_same_auths(auths: &[NumberedAuth], others: &[NumberedAuth]) -> bool
    ensures { IsTrue result → map (λ a. a.auth) auths.now ≡ map (λ a. a.auth) others.now }
{
    if auths.len() != others.len() {
        return false;
    }
    for place in 0..auths.len() {
        if !auths[place].auth.get().same(others[place].auth.get()) {
            return false;
        }
    }
    true
}

// Whether the peer is the administrator's, holds nothing, and has no other author's requests.
fn stands_alone(peer: &Peer) -> bool
    ensures site { IsTrue result → peer.now.site ≡ 0 }
    ensures held { IsTrue result → peer.now.held ≡ [] }
    ensures own { IsTrue result → IsTrue (list_all (λ m. is_administrators (key_of m)) peer.now.journal) }
{
    peer.site() == 0 && peer.held_len() == 0 && has_no_other_author(peer)
}

// Whether users, groups and authorizations are the same.
fn has_same_rules(old: &Peer, new: &Peer) -> bool
    ensures users { IsTrue result → (front_policy new.now).users ≡ (front_policy old.now).users }
    ensures groups { IsTrue result → (front_policy new.now).groups ≡ (front_policy old.now).groups }
    ensures auths { IsTrue result → map (λ a. a.auth) (front_policy new.now).auths ≡ map (λ a. a.auth) (front_policy old.now).auths }
{
    let (before, after) = (old.policy(), new.policy());
    after.users() == before.users()
        && are_same_groups(after.groups(), before.groups())
        && are_same_auths(after.as_slice(), before.as_slice())
}

// Whether both show the same bytes.
fn shows_same(old: &Peer, new: &Peer) -> Result<bool, NoMemory>
    ensures { IfOk result (λ same. IsTrue same → concat (text new.now) ≡ concat (text old.now)) }
{
    let (before, after) = (old.text()?, new.text()?);
    Ok(after.as_str().as_bytes() == before.as_str().as_bytes())
}

// Whether both extents cover the same bytes, each in its peer.
fn covers_alike(
    alloc: Global,
    old: &Peer,
    extent: &Extent,
    new: &Peer,
    anew: &Extent,
) -> Result<bool, NoMemory>
    ensures { IfOk result (λ same. IsTrue same → covered_bytes new.now anew.now ≡ covered_bytes old.now extent.now) }
{
    let before = covered_bytes(alloc, old, extent)?;
    let after = covered_bytes(alloc, new, anew)?;
    Ok(are_same_bits(&after, &before))
}

// Whether both objects have one number, and cover the same bytes.
fn is_alike(
    alloc: Global,
    old: &Peer,
    object: &Object,
    new: &Peer,
    anew: &Object,
) -> Result<bool, NoMemory>
    ensures number { IfOk result (λ same. IsTrue same → object.now.number ≡ anew.now.number) }
    ensures bytes { IfOk result (λ same. IsTrue same → covered_bytes new.now anew.now.extent ≡ covered_bytes old.now object.now.extent) }
{
    if object.number != anew.number {
        return Ok(false);
    }
    covers_alike(alloc, old, &object.extent, new, &anew.extent)
}

// What is left of a renewal's objects behind the one that stands for this one; none where it isn't alike.
fn behind_alike<'a>(
    alloc: Global,
    old: &Peer,
    object: &Object,
    new: &Peer,
    made: &'a [Object],
) -> Result<Option<&'a [Object]>, NoMemory>
    ensures { IfOk result (λ r. IfSome r (λ rest.
        coverings new.now made.now ≡ coverings old.now (kept_objects (object.now ∷ [])) ++ coverings new.now rest.now)) }
{
    if !is_kept(&object.extent) {
        return Ok(Some(made));
    }
    match made {
        [anew, rest @ ..] => {
            if is_alike(alloc, old, object, new, anew)? {
                Ok(Some(rest))
            } else {
                Ok(None)
            }
        }
        [] => Ok(None),
    }
}

// Whether the objects that are kept of the old peer are those of the new one, and cover the same bytes.
fn has_same_objects(alloc: Global, old: &Peer, new: &Peer) -> Result<bool, NoMemory>
    ensures { IfOk result (λ same. IsTrue same
        → coverings new.now (front_policy new.now).objects ≡ coverings old.now (kept_objects (front_policy old.now).objects)) }
{
    let mut made = new.policy().objects();
    for object in old.policy().objects() {
        let Some(rest) = behind_alike(alloc, old, object, new, made)? else {
            return Ok(false);
        };
        made = rest;
    }
    Ok(made.is_empty())
}

/// Whether a peer is a renewal of another, as far as it is told: where it answers yes it is one. Takes for each object of
/// both a look-up for each element that shows, and a byte for each byte of the text.
pub fn is_renewal(alloc: Global, old: &Peer, new: &Peer) -> Result<bool, NoMemory>
    ensures { IfOk result (λ same. IsTrue same → IsRenewalOf old.now new.now) }
{
    if !stands_alone(new) || !has_same_rules(old, new) {
        return Ok(false);
    }
    if !shows_same(old, new)? {
        return Ok(false);
    }
    has_same_objects(alloc, old, new)
}
