//! A fresh peer that writes a text.
ghost use Rattle.std.specs.Prelude.{◌≡◌, ◌≤◌, length, fold, IfOk, OnOk};
ghost use Rattle.coop_request.specs.declared.request.TheConstants.{MAX_REQUESTS};
ghost use Rattle.peer_core.specs.Peer.{text, fresh_peer};
ghost use Rattle.peer_core.specs.After.{peer_after};
ghost use Rattle.peer_renewal.specs.Writing.{steps_from};

use coop_request::Piece;
use element_name::NoMemory;
use peer_core::Peer;
use peer_step::{LocalEdit, Step};
use std::alloc::Global;

// Has a fresh peer write pieces one behind another.
fn write(peer: &mut Peer, pieces: &[Piece]) -> Result<(), NoMemory>
    requires fresh { peer.old ≡ fresh_peer 0 }
    requires few { length pieces.now ≤ MAX_REQUESTS }
    ensures steps { OnOk result (peer.new ≡ fold peer_after (fresh_peer 0) (steps_from 0 pieces.now)) }
    ensures text { OnOk result (text peer.new ≡ pieces.now) }
{
    for at in 0..pieces.len() {
        let letter = pieces[at];
        let _ = letter.bytes();
        let edit = LocalEdit::Insert {
            at: at as u32,
            letter,
        };
        drop(peer.step(Step::Edit(edit))?);
    }
    Ok(())
}

/// A fresh peer of the administrator's that has written these pieces one behind another, and shows them. Takes a step
/// for each.
pub fn written(alloc: Global, pieces: &[Piece]) -> Result<Peer, NoMemory>
    requires { length pieces.now ≤ MAX_REQUESTS }
    ensures steps { IfOk result (λ peer. peer ≡ fold peer_after (fresh_peer 0) (steps_from 0 pieces.now)) }
    ensures text { IfOk result (λ peer. text peer ≡ pieces.now) }
{
    let mut peer = Peer::new(alloc, 0)?;
    match write(&mut peer, pieces) {
        Ok(()) => Ok(peer),
        Err(NoMemory) => {
            drop(peer);
            Err(NoMemory)
        }
    }
}
