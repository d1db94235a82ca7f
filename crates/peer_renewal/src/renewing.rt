//! A peer that is renewed.
ghost use Rattle.std.specs.Prelude.{◌≡◌, ◌<◌, ◌≤◌, length, IfOk, IsErrOf, IsTrue};
ghost use Rattle.std.specs.List.{concat};
ghost use Rattle.element_name.specs.declared.limits.TheConstants.{MAX_VERSION};
ghost use Rattle.coop_request.specs.declared.request.TheConstants.{MAX_REQUESTS};
ghost use Rattle.peer_core.specs.Peer.{text};
ghost use Rattle.peer_core.specs.Sound.{IsSound};
ghost use Rattle.peer_renewal.specs.Renewal.{IsRenewalOf, entries_needed};
ghost use Rattle.peer_renewal.specs.Operations.{operations_of};
ghost use Rattle.peer_renewal.specs.Extents.{objects_anew};
ghost use Rattle.peer_renewal.specs.Coverage.{front_policy};

use crate::breaks::breaks_of;
use crate::cutting::in_pieces;
use crate::extents::objects_anew;
use crate::fail::RenewFail;
use crate::likeness::is_renewal;
use crate::operations::{issue_all, operations};
use crate::writing::written;
use coop_request::{MAX_REQUESTS, Piece};
use element_name::{MAX_VERSION, NoMemory};
use peer_core::Peer;
use policy_book::AdminOp;
use std::alloc::Global;

// The pieces of a renewed text.
fn pieces_anew(alloc: Global, old: &Peer) -> Result<Vec<Piece>, RenewFail>
    ensures bytes { IfOk result (λ pieces. concat pieces.items ≡ concat (text old.now)) }
    ensures room { IfOk result (λ pieces. length pieces.items ≤ MAX_REQUESTS) }
    ensures too_many { IsErrOf result RenewFail.TooManyPieces → MAX_REQUESTS < length (concat (text old.now)) }
    ensures no_other { ¬ IsErrOf result RenewFail.TooManyEntries }
{
    let shown = old.text()?;
    let bytes = shown.as_str().as_bytes();
    let breaks = breaks_of(alloc, old, bytes)?;
    let Some(pieces) = in_pieces(alloc, bytes, &breaks)? else {
        return Err(RenewFail::NotAlike);
    };
    if pieces.len() > MAX_REQUESTS {
        return Err(RenewFail::TooManyPieces);
    }
    Ok(pieces)
}

// The operations that make the rules of a peer anew, over these pieces.
fn operations_anew(alloc: Global, old: &Peer, pieces: &[Piece]) -> Result<Vec<AdminOp>, RenewFail>
    requires { length pieces.now ≤ MAX_REQUESTS }
    ensures value { IfOk result (λ ops. ops.items ≡ operations_of (front_policy old.now) (objects_anew old.now pieces.now)) }
    ensures room { IfOk result (λ ops. entries_needed old.now ≤ MAX_VERSION) }
    ensures too_many { IsErrOf result RenewFail.TooManyEntries → MAX_VERSION < entries_needed old.now }
    ensures no_other { ¬ IsErrOf result RenewFail.TooManyPieces }
{
    let objects = objects_anew(alloc, old, pieces)?;
    let ops = operations(alloc, old.policy(), &objects)?;
    if ops.len() > MAX_VERSION as usize {
        return Err(RenewFail::TooManyEntries);
    }
    Ok(ops)
}

// Has a peer issue the rules of another, and answers whether it is a renewal of that then.
fn issue_rules(
    alloc: Global,
    old: &Peer,
    new: &mut Peer,
    ops: Vec<AdminOp>,
) -> Result<bool, NoMemory>
    ensures renewal { IfOk result (λ same. IsTrue same → IsRenewalOf old.now new.new) }
    ensures sound { IfOk result (λ same. IsSound new.new) }
{
    issue_all(new, ops)?;
    let _ = new.site();
    is_renewal(alloc, old, new)
}

/// A fresh peer of the administrator's with the text of a peer and its rules, in few requests and entries, none of which
/// waits for anything or can be undone. What the old peer holds, what doesn't show there, and who wrote what is lost, and
/// so are the objects of authors' elements.
///
/// Takes three look-ups for each object at each element that shows, and a step for each piece and each operation.
pub fn renew(alloc: Global, old: &Peer) -> Result<Peer, RenewFail>
    ensures renewal { IfOk result (λ new. IsRenewalOf old.now new) }
    ensures sound { IfOk result (λ new. IsSound new) }
    ensures room { IfOk result (λ new. entries_needed old.now ≤ MAX_VERSION) }
    ensures too_many_pieces { IsErrOf result RenewFail.TooManyPieces → MAX_REQUESTS < length (concat (text old.now)) }
    ensures too_many_entries { IsErrOf result RenewFail.TooManyEntries → MAX_VERSION < entries_needed old.now }
{
    let pieces = pieces_anew(alloc, old)?;
    let ops = operations_anew(alloc, old, &pieces)?;
    let mut new = written(alloc, &pieces)?;
    match issue_rules(alloc, old, &mut new, ops) {
        Ok(true) => Ok(new),
        Ok(false) => {
            drop(new);
            Err(RenewFail::NotAlike)
        }
        Err(NoMemory) => {
            drop(new);
            Err(RenewFail::NoMemory)
        }
    }
}
