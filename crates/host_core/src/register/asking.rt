//! What links ask for.
ghost use Rattle.std.specs.Prelude.{◌≡◌};
ghost use Rattle.request_state.specs.State.{is_invalid};
ghost use Rattle.host_core.specs.Past.{host_peer, is_offer, is_denial, denied_of};
ghost use Rattle.host_core.specs.Refusals.{is_owner, reads_alone, is_order, is_own, request_refusal, order_refusal, refusal_by, ask_refusal, own_refusal};

use super::Register;
use crate::door::door_refusal;
use crate::event::{LinkId, OpenLink, Role};
use crate::refusal::Refusal;
use coop_request::Request;
use edit_message::Message;
use peer_core::Peer;
use peer_step::{Answer, Step};
use request_state::State;

fn is_owner(role: Role) -> bool
    ensures { result ≡ is_owner role }
{
    matches!(role, Role::Owner)
}

fn reads_alone(role: Role) -> bool
    ensures { result ≡ reads_alone role }
{
    matches!(role, Role::Reader)
}

fn is_order(step: &Step) -> bool
    ensures { result ≡ is_order step.now }
{
    match step {
        Step::Edit(_) => true,
        Step::Administer(_) => true,
        Step::ValidateNext => true,
        Step::Receive(_) => false,
        Step::Settle => false,
        Step::Look { .. } => false,
        Step::Show => false,
    }
}

fn is_own(step: &Step) -> bool
    ensures { result ≡ is_own step.now }
{
    is_order(step) || matches!(step, Step::Settle)
}

fn order_refusal(link: OpenLink, step: &Step) -> Option<Refusal>
    ensures { result ≡ order_refusal link step.now }
{
    if is_owner(link.role) && is_order(step) {
        None
    } else {
        Some(Refusal::NotAllowed)
    }
}

/// Why a step isn't made by the host itself, if it isn't.
pub(crate) fn own_refusal(step: &Step) -> Option<Refusal>
    ensures { result ≡ own_refusal step.now }
{
    if is_own(step) {
        None
    } else {
        Some(Refusal::NotAllowed)
    }
}

/// Whether a message is offered.
pub(crate) fn is_offer(step: &Step) -> bool
    ensures { result ≡ is_offer step.now }
{
    matches!(step, Step::Receive(_))
}

/// Whether a request joined the history as Invalid.
pub(crate) fn is_denial(answer: &Answer) -> bool
    ensures { result ≡ is_denial answer.now }
{
    match answer {
        Answer::Taken(state) => is_invalid(state),
        _ => false,
    }
}

fn is_invalid(state: &State) -> bool
    ensures { result ≡ is_invalid state.now }
{
    match state {
        State::Tentative => false,
        State::Valid { .. } => false,
        State::Invalid { .. } => true,
    }
}

impl Register {
    /// How many requests that a site's links offered were denied as they came.
    pub fn denied(&self, site: u16) -> u32
        ensures { result ≡ denied_of site self.now }
    {
        self.denied.get(&site).copied().unwrap_or(0)
    }

    fn request_refusal(
        &self,
        peer: &Peer,
        site: u16,
        link: OpenLink,
        request: Request,
    ) -> Option<Refusal>
        requires { peer.now ≡ host_peer self.now }
        ensures { result ≡ request_refusal self.now site link request }
    {
        if reads_alone(link.role) {
            return Some(Refusal::ReadsAlone);
        }
        if request.id().site() != site {
            return Some(Refusal::ForgedSite);
        }
        door_refusal(peer, self.denied(site), request)
    }

    fn refusal_by(&self, peer: &Peer, site: u16, link: OpenLink, step: &Step) -> Option<Refusal>
        requires { peer.now ≡ host_peer self.now }
        ensures { result ≡ refusal_by self.now site link step.now }
    {
        match step {
            Step::Receive(Message::Coop(request)) => {
                self.request_refusal(peer, site, link, *request)
            }
            Step::Receive(Message::Admin(_)) => Some(Refusal::EntryOffered),
            Step::Edit(_) => order_refusal(link, step),
            Step::Administer(_) => order_refusal(link, step),
            Step::Settle => order_refusal(link, step),
            Step::ValidateNext => order_refusal(link, step),
            Step::Look { .. } => order_refusal(link, step),
            Step::Show => order_refusal(link, step),
        }
    }

    /// Why a step isn't made for a link, if it isn't, at the host's peer.
    pub fn ask_refusal(&self, peer: &Peer, link: LinkId, step: &Step) -> Option<Refusal>
        requires { peer.now ≡ host_peer self.now }
        ensures { result ≡ ask_refusal self.now link step.now }
    {
        match self.open_link(link) {
            Some(known) => self.refusal_by(peer, link.site, known, step),
            None => Some(Refusal::NoLink),
        }
    }
}
