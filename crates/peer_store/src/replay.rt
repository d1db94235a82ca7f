//! Peers from the bodies of their steps.
ghost use Rattle.std.specs.Prelude.{◌≡◌, ◌<◌, ◌^◌, false, IfOk, IfErr, IsTrue};
ghost use Rattle.peer_disk.specs.declared.walk.Ending.{Ending};
ghost use Rattle.peer_disk.specs.Records.{gate_place, bytes_of_each};
ghost use Rattle.peer_core.specs.Peer.{fresh_peer};
ghost use Rattle.peer_store.specs.Store.{IsNoStep};
ghost use Rattle.peer_store.specs.Replay.{MakesBody, IsReplay, IsStoppedBy, IsRefusedBy};

use crate::fault::StoreFault;
use crate::making::make_body;
use peer_core::Peer;
use peer_disk::{BESIDE_BODY, Ending, FIRST_GATE, Loaded};
use std::alloc::Global;

// Makes the steps of these bodies, and gives the place of the gate behind their records.
fn replay(alloc: Global, peer: &mut Peer, bodies: &[Vec<u8>]) -> Result<u64, StoreFault>
    requires { gate_place (bytes_of_each bodies.now) < 2 ^ 64 }
    ensures place { IfOk result (λ place. place ≡ gate_place (bytes_of_each bodies.now)) }
    ensures replay { IfOk result (λ _. IsReplay peer.old (bytes_of_each bodies.now) peer.new) }
    ensures stopped { IfErr result (λ fault. IsStoppedBy fault peer.old (bytes_of_each bodies.now)) }
{
    let mut place = FIRST_GATE;
    for body in bodies {
        if !make_body(alloc, peer, body)? {
            return Err(StoreFault::NotAStore(place));
        }
        place += BESIDE_BODY + body.len() as u64;
    }
    Ok(place)
}

/// The peer of a file's bodies, and the place of the gate behind their records.
pub(crate) struct Replayed {
    pub(crate) peer: Peer,
    pub(crate) place: u64,
}

/// The peer of a site by what was read of its file, unless this is no store.
#[tactic(auto, using(crate::proofs::Opening::refused_by, crate::proofs::Opening::refused_broken))]
pub(crate) fn replay_file(alloc: Global, site: u16, loaded: &Loaded) -> Result<Replayed, StoreFault>
    requires { gate_place (bytes_of_each loaded.now.bodies.items) < 2 ^ 64 }
    ensures place { IfOk result (λ r. r.place ≡ gate_place (bytes_of_each loaded.now.bodies.items)) }
    ensures replay { IfOk result (λ r. IsReplay (fresh_peer site) (bytes_of_each loaded.now.bodies.items) r.peer) }
    ensures closed { IfOk result (λ _. loaded.now.ending ≡ Ending.Closed) }
    ensures refused { IfErr result (λ fault. IsRefusedBy fault site loaded.now) }
{
    let mut peer = Peer::new(alloc, site)?;
    match replay(alloc, &mut peer, &loaded.bodies) {
        Ok(place) => match loaded.ending {
            Ending::Closed => Ok(Replayed { peer, place }),
            Ending::Broken => {
                drop(peer);
                Err(StoreFault::NotAStore(place))
            }
        },
        Err(fault) => {
            drop(peer);
            Err(fault)
        }
    }
}
