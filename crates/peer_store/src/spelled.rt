//! Steps in records.
ghost use Rattle.std.specs.Prelude.{◌≡◌, ◌+◌, false, IfOk, IfSome, IsNone};
ghost use Rattle.peer_core.specs.Peer.{front};
ghost use Rattle.peer_store.specs.Steps.{changes};
ghost use Rattle.peer_store.specs.Store.{IsBodyFor};

use crate::body::body_of;
use element_name::NoMemory;
use peer_core::Peer;
use peer_disk::Record;
use peer_step::Step;
use std::alloc::Global;

/// The version that an operation of this peer would make.
pub(crate) fn next_version(peer: &Peer) -> u32
    ensures { result ≡ front peer.now + 1 }
{
    // That it is sound, and so has no more entries than it may, is said with its site.
    let _site = peer.site();
    peer.front() + 1
}

/// The record of a step that this peer is to make; none of a step that has no body there, and so changes nothing.
pub(crate) fn step_record(
    alloc: Global,
    peer: &Peer,
    step: &Step,
) -> Result<Option<Record>, NoMemory>
    ensures some { IfOk result (λ found. IfSome found (λ body. IsBodyFor peer.now step.now body)) }
    ensures none { IfOk result (λ found. IsNone found → changes peer.now step.now ≡ false) }
{
    crate::laws::short_bodies();
    let Some(body) = body_of(alloc, next_version(peer), step)? else {
        return Ok(None);
    };
    Ok(Some(Record::new(alloc, &body)?))
}
