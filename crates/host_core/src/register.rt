//! What a host knows besides its peer.
ghost use Rattle.std.specs.Prelude.{◌≡◌, ◌↔◌, ◌&&◌, ◌∷◌, [], ◌<◌, ◌≤◌, ℕ, true, unwrap_or, IsSome, IsSomeAnd, IfSome, Option, Some, Contains, length, slice_get, IsTrue};
ghost use Rattle.std.specs.Ordering.{nat_cmp};
ghost use Rattle.std.specs.BTreeMap.{get};
ghost use Rattle.peer_step.specs.declared.step.Step.{Step};
ghost use Rattle.peer_core.specs.Answers.{answer_of};
ghost use Rattle.host_core.specs.declared.limits.TheConstants.{MAX_DENIED};
ghost use Rattle.host_core.specs.declared.event.LinkId.{LinkId};
ghost use Rattle.host_core.specs.Past.{host_peer, saved_journal, device_of, open_link, is_offer, is_denial, count_after};
ghost use Rattle.host_core.specs.Happens.{MayHappen, IsAllSaved, IsPast};

mod asking;
mod linking;
mod people;

use crate::event::{Device, HostEvent, LinkId, OpenLink};
pub(crate) use asking::{is_denial, is_offer, own_refusal};
use edit_message::Message;
use ghost_list::GhostList;
use peer_core::Peer;
use peer_step::Step;
use std::alloc::Global;
use std::collections::BTreeMap;
use std::marker::Model;

/// What a host knows besides its peer: people's devices, the open links, and how much is saved. Contracts see what has
/// happened, the newest first.
#[derive(Drop)]
pub struct Register {
    document: [u8; 16],
    // How many persons, devices and links were made.
    people: u32,
    sites: u32,
    opened: u64,
    // How many messages of the journal are saved.
    saved: u32,
    // By their sites, those that are open.
    devices: BTreeMap<u16, Device>,
    links: BTreeMap<u16, OpenLink>,
    // By sites, how many requests were denied as they came. Each site with an open link has its place.
    denied: BTreeMap<u16, u32>,
    past: GhostList<HostEvent>,
}

impl Model for Register {
    ghost use Rattle.std.specs.Prelude.{List};
    ghost use Rattle.host_core.specs.declared.event.HostEvent.{HostEvent};
    ghost use Rattle.host_core.specs.Records.{IsRecordOf};

    ghost Value = { List HostEvent };

    ghost view = { λ r. r.past.items };

    ghost invariant = { λ r. IsRecordOf r.past.items r.document r.people r.sites r.opened r.saved r.devices r.links r.denied };
}

// Counts one more at the site of a link that was denied something. It has its place.
fn count_denied(counts: &mut BTreeMap<u16, u32>, by: Option<LinkId>, denied: bool)
    requires { denied ≡ true → IfSome by (λ l. IsSomeAnd (get nat_cmp counts.old l.site) (λ count. count ≤ MAX_DENIED)) }
    ensures counts { (u : ℕ) → unwrap_or (get nat_cmp counts.new u) 0 ≡ count_after by denied u (unwrap_or (get nat_cmp counts.old u) 0) }
    ensures stay { (u : ℕ) → IsSome (get nat_cmp counts.old u) → IsSome (get nat_cmp counts.new u) }
{
    if !denied {
        return;
    }
    let Some(link) = by else {
        return;
    };
    if let Some(count) = counts.get_mut(&link.site) {
        *count += 1;
    }
}

impl Register {
    /// The register of a host that begins with this peer, all of which is saved. It knows nobody, and takes no memory.
    pub fn new(alloc: Global, peer: &Peer, document: [u8; 16]) -> Register
        ensures { result ≡ HostEvent.Began peer.now document ∷ [] }
    {
        let none: GhostList<HostEvent> = GhostList::new();
        Register {
            document,
            people: 0,
            sites: 0,
            opened: 0,
            saved: peer.journal_len(),
            devices: BTreeMap::new(alloc),
            links: BTreeMap::new(alloc),
            denied: BTreeMap::new(alloc),
            past: none.changed(&(peer, document)),
        }
    }

    /// Each event might happen after those before it.
    pub fn past(&self)
        ensures { IsPast self.now }
    {
        let _saved = self.saved;
    }

    /// How many messages of the journal are saved.
    pub fn saved(&self) -> u32
        ensures count { result ≡ length (saved_journal self.now) }
        ensures past { IsPast self.now }
    {
        self.saved
    }

    /// The device of a site, until it is closed.
    pub fn device(&self, site: u16) -> Option<Device>
        ensures { result ≡ device_of site self.now }
    {
        self.devices.get(&site).copied()
    }

    /// What is known of a link, while it is open.
    pub fn open_link(&self, link: LinkId) -> Option<OpenLink>
        ensures { result ≡ open_link self.now link }
    {
        let known = self.links.get(&link.site).copied()?;
        if known.number == link.number {
            Some(known)
        } else {
            None
        }
    }

    /// What will have happened once this step is made.
    pub(crate) fn foreseen(&self, by: Option<LinkId>, step: &Step) -> GhostList<HostEvent>
        ensures { result.items ≡ HostEvent.Made by step.now ∷ self.now }
    {
        self.past.changed(&(by, step))
    }

    /// A step was made, as it was foreseen, and a request was denied by it or not.
    pub(crate) fn made(&mut self, past: GhostList<HostEvent>, by: Option<LinkId>, denied: bool)
        requires { (step : Step) × (past.items ≡ HostEvent.Made by step ∷ self.old) × MayHappen self.old (HostEvent.Made by step)
            × (denied ≡ (is_offer step && is_denial (answer_of (host_peer self.old) step))) }
        ensures { self.new ≡ past.items }
    {
        count_denied(&mut self.denied, by, denied);
        self.past = past;
    }

    /// All that the peer has is saved.
    pub(crate) fn saved_all(&mut self, peer: &Peer)
        requires { peer.now ≡ host_peer self.old }
        ensures { self.new ≡ HostEvent.Saved ∷ self.old }
    {
        self.saved = peer.journal_len();
        self.past = self.past.changed(&());
    }

    /// Whether all that the peer's journal has is saved.
    pub(crate) fn is_all_saved(&self, peer: &Peer) -> bool
        requires { peer.now ≡ host_peer self.now }
        ensures { IsTrue result ↔ IsAllSaved self.now }
    {
        peer.journal_len() <= self.saved
    }

    /// An open link is told the answers of its steps, since all that was made is saved.
    pub(crate) fn told(&mut self, link: LinkId)
        requires open { IsSome (open_link self.old link) }
        requires saved { IsAllSaved self.old }
        ensures told { self.new ≡ HostEvent.Told link ∷ self.old }
        ensures whole { saved_journal self.old ≡ (host_peer self.old).journal }
    {
        self.past = self.past.changed(&link);
    }

    /// An open link is given the message at its mark, which is saved.
    pub(crate) fn gave(&mut self, link: LinkId, known: OpenLink, message: &Message)
        requires known { open_link self.old link ≡ Some known }
        requires next { slice_get (host_peer self.old).journal known.mark ≡ Some message.now }
        requires saved { known.mark < length (saved_journal self.old) }
        ensures given { self.new ≡ HostEvent.Gave link message.now ∷ self.old }
        ensures among { Contains (saved_journal self.old) message.now }
    {
        if let Some(at) = self.links.get_mut(&link.site) {
            at.mark += 1;
        }
        self.past = self.past.changed(&(link, message));
    }
}
