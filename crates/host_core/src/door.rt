//! What a host keeps out of its document.
ghost use Rattle.std.specs.Prelude.{◌≡◌, length};
ghost use Rattle.element_name.specs.Cases.{first_of};
ghost use Rattle.peer_core.specs.Peer.{history};
ghost use Rattle.host_core.specs.Refusals.{rows_of_door};

use crate::limits::{LINK_REQUESTS, MAX_DENIED};
use crate::refusal::Refusal;
use coop_request::Request;
use edit_message::Message;
use peer_core::Peer;

// How many requests a peer has integrated.
#[tactic(auto, using(peer_tables::proofs::KeptLemmas::Reads::sizes))]
fn requests_len(peer: &Peer) -> u32
    ensures { result ≡ length (history peer.now) }
{
    peer.journal_len() - peer.front()
}

/// Why a request is kept out, so many of whose site were denied. Takes the time of a look-up of what it misses.
pub(crate) fn door_refusal(peer: &Peer, denied: u32, request: Request) -> Option<Refusal>
    ensures { result ≡ first_of (rows_of_door peer.now denied request) }
{
    if request.id().stamp() > peer.greatest_stamp() + 1 {
        return Some(Refusal::StampAhead);
    }
    if let Some(missing) = peer.missing(&Message::Coop(request)) {
        return Some(Refusal::Misses(missing));
    }
    if denied >= MAX_DENIED {
        return Some(Refusal::DeniedTooOften);
    }
    if requests_len(peer) >= LINK_REQUESTS {
        return Some(Refusal::OwnersReserve);
    }
    None
}
