//! A host with its peer.
ghost use Rattle.std.specs.Prelude.{◌≡◌, ◌∷◌, [], ◌≤◌, ℕ, List, Some, None, OnErr, IfOk, IfErr, IfSome, IsNone, OnOk, Err, Contains, length, false, IsTrue};
ghost use Rattle.std.specs.Coded.{Coded-set};
ghost use Rattle.edit_message.specs.declared.message.Message.{Message};
ghost use Rattle.peer_step.specs.declared.step.Step.{Step};
ghost use Rattle.peer_core.specs.Sound.{IsSound};
ghost use Rattle.peer_core.specs.Answers.{answer_of};
ghost use Rattle.host_core.specs.declared.event.LinkId.{LinkId};
ghost use Rattle.host_core.specs.declared.event.HostEvent.{HostEvent};
ghost use Rattle.host_core.specs.Past.{host_peer, saved_journal, device_of, links_opened, open_link};
ghost use Rattle.peer_outlook.specs.Outlook.{names_undone, SaysUndone};
ghost use Rattle.host_core.specs.Refusals.{person_refusal, device_refusal, hello_refusal, ask_refusal, no_link, own_refusal};
ghost use Rattle.host_core.specs.Outside.{IsFor, IsForOrWantsMemory};
ghost use Rattle.host_core.specs.Happens.{MayHappen, IsAllSaved, IsPast};

use crate::event::{Device, Hello, LinkId};
use crate::keeper::Keeper;
use crate::refusal::Refusal;
use crate::register::{Register, is_denial, is_offer, own_refusal};
use edit_message::Message;
use element_name::NoMemory;
use peer_core::Peer;
use peer_outlook::{Outlook, foresee};
use peer_step::{Answer, Step};
use policy_book::AdminOp;
use std::alloc::Global;

/// A host of one document, with its peer.
///
/// In each turn it takes what came, saves once for all of that, and then gives each link the messages of the journal
/// that it hasn't. A refusal changes nothing that another link sees.
#[derive(Drop)]
pub struct Host<K: Keeper> {
    keeper: K,
    register: Register,
    // The keeper has the peer of what has happened: as pasts, so that the equation has one proof at most.
    ghost peer_is: { HostEvent.Began (K.peer keeper) [] ∷ [] ≡ HostEvent.Began (host_peer register) [] ∷ [] } by { Coded-set register-code (HostEvent.Began (K.peer keeper) [] ∷ []) (HostEvent.Began (host_peer register) [] ∷ []) },

    // It keeps what was saved.
    ghost kept: { ∥ K.keeps keeper (saved_journal register) ∥₁ },
}

impl<K: Keeper> Host<K> {
    /// A host that begins with the keeper's peer, all of which is kept.
    pub fn new(alloc: Global, keeper: K, document: [u8; 16]) -> Self
        requires { K.keeps keeper (K.peer keeper).journal }
        ensures { result.register ≡ HostEvent.Began (K.peer keeper) document ∷ [] }
    {
        let register = Register::new(alloc, keeper.peer(), document);
        Host { keeper, register }
    }

    /// What has happened.
    pub fn register(&self) -> &Register
        ensures same { result.now ≡ self.now.register }
        ensures past { IsPast self.now.register }
    {
        self.register.past();
        &self.register
    }

    /// The peer.
    pub fn peer(&self) -> &Peer
        ensures peer { result.now ≡ host_peer self.now.register }
        ensures sound { IsSound (host_peer self.now.register) }
    {
        let peer = self.keeper.peer();
        let _site = peer.site();
        peer
    }

    /// Makes a person, and gives it a number that none was given before. Takes no memory.
    pub fn make_person(&mut self) -> Result<u16, Refusal>
        ensures made { IfOk result (λ person. self.new.register ≡ HostEvent.PersonMade person ∷ self.old.register) }
        ensures refused { IfErr result (λ refusal. person_refusal self.old.register ≡ Some refusal) }
        ensures unchanged { OnErr result (self.new.register ≡ self.old.register) }
        ensures keeper { self.new.keeper ≡ self.old.keeper }
    {
        self.register.make_person()
    }

    /// Makes a device of a person, and gives it a site that none was given before.
    pub fn make_device(&mut self, device: Device) -> Result<u16, Refusal>
        ensures made { IfOk result (λ site. self.new.register ≡ HostEvent.DeviceMade site device ∷ self.old.register) }
        ensures refused { IfSome (device_refusal self.old.register device.person) (λ refusal. result ≡ Err refusal) }
        ensures cause { IfErr result (λ refusal. IsForOrWantsMemory refusal (device_refusal self.old.register device.person)) }
        ensures unchanged { OnErr result (self.new.register ≡ self.old.register) }
        ensures keeper { self.new.keeper ≡ self.old.keeper }
    {
        self.register.make_device(device)
    }

    /// Gives a device another secret, of this digest, and closes its link. Takes no memory.
    pub fn change_secret(&mut self, site: u16, digest: [u8; 32]) -> Result<(), Refusal>
        ensures changed { OnOk result (self.new.register ≡ HostEvent.SecretChanged site digest ∷ self.old.register) }
        ensures refused { IfErr result (λ refusal. (refusal ≡ Refusal.NoDevice) × (device_of site self.old.register ≡ None)) }
        ensures unchanged { OnErr result (self.new.register ≡ self.old.register) }
        ensures keeper { self.new.keeper ≡ self.old.keeper }
    {
        self.register.change_secret(site, digest)
    }

    /// Closes a device for good, and its link. Takes no memory.
    pub fn close_device(&mut self, site: u16) -> Result<(), Refusal>
        ensures closed { OnOk result (self.new.register ≡ HostEvent.DeviceClosed site ∷ self.old.register) }
        ensures refused { IfErr result (λ refusal. (refusal ≡ Refusal.NoDevice) × (device_of site self.old.register ≡ None)) }
        ensures unchanged { OnErr result (self.new.register ≡ self.old.register) }
        ensures keeper { self.new.keeper ≡ self.old.keeper }
    {
        self.register.close_device(site)
    }

    /// Opens a link by its hello. An older link of its site is closed by that.
    pub fn admit(&mut self, hello: &Hello) -> Result<LinkId, Refusal>
        ensures opened { OnOk result (self.new.register ≡ HostEvent.LinkOpened hello.now ∷ self.old.register) }
        ensures link { IfOk result (λ link. link ≡ record { site = hello.now.site; number = links_opened self.old.register }) }
        ensures refused { IfSome (hello_refusal self.old.register hello.now) (λ refusal. result ≡ Err refusal) }
        ensures cause { IfErr result (λ refusal. IsForOrWantsMemory refusal (hello_refusal self.old.register hello.now)) }
        ensures unchanged { OnErr result (self.new.register ≡ self.old.register) }
        ensures keeper { self.new.keeper ≡ self.old.keeper }
    {
        self.register.admit(hello)
    }

    /// Closes a link. Takes no memory.
    pub fn close(&mut self, link: LinkId) -> Result<(), Refusal>
        ensures closed { OnOk result (self.new.register ≡ HostEvent.LinkClosed link ∷ self.old.register) }
        ensures refused { IfErr result (λ refusal. (refusal ≡ Refusal.NoLink) × (open_link self.old.register link ≡ None)) }
        ensures unchanged { OnErr result (self.new.register ≡ self.old.register) }
        ensures keeper { self.new.keeper ≡ self.old.keeper }
    {
        self.register.close(link)
    }

    // Makes a step that may be made.
    fn make(&mut self, by: Option<LinkId>, step: Step) -> Result<Answer, Refusal>
        requires { MayHappen self.old.register (HostEvent.Made by step) }
        ensures made { OnOk result (self.new.register ≡ HostEvent.Made by step ∷ self.old.register) }
        ensures answer { IfOk result (λ answer. answer ≡ answer_of (host_peer self.old.register) step) }
        ensures outside { IfErr result (λ refusal. IsFor refusal None) }
        ensures unchanged { OnErr result (self.new.register ≡ self.old.register) }
    {
        let past = self.register.foreseen(by, &step);
        let offer = is_offer(&step);
        let answer = self.keeper.make(step)?;
        let denied = offer && is_denial(&answer);
        self.register.made(past, by, denied);
        Ok(answer)
    }

    /// Why a step isn't made for a link now, if it isn't.
    pub fn ask_refusal(&self, link: LinkId, step: &Step) -> Option<Refusal>
        ensures { result ≡ ask_refusal self.now.register link step.now }
    {
        self.register.ask_refusal(self.keeper.peer(), link, step)
    }

    /// Makes a step that a link asks for: a request of its site, or an owner's order. The peer's answer says what
    /// becomes of it, and is to be told once the host has saved.
    pub fn ask(&mut self, link: LinkId, step: Step) -> Result<Answer, Refusal>
        ensures made { OnOk result (self.new.register ≡ HostEvent.Made (Some link) step ∷ self.old.register) }
        ensures answer { IfOk result (λ answer. answer ≡ answer_of (host_peer self.old.register) step) }
        ensures refused { IfSome (ask_refusal self.old.register link step) (λ refusal. (result ≡ Err refusal) × (self.new ≡ self.old)) }
        ensures cause { IfErr result (λ refusal. IsFor refusal (ask_refusal self.old.register link step)) }
        ensures unchanged { OnErr result (self.new.register ≡ self.old.register) }
    {
        if let Some(refusal) = self.ask_refusal(link, &step) {
            return Err(refusal);
        }
        self.make(Some(link), step)
    }

    /// What the host's peer would answer to an operation now, and which requests that would undo, so how many of whom.
    /// Nothing changes. Takes the time and memory of the whole journal.
    pub fn outlook(&self, alloc: Global, op: &AdminOp) -> Result<Outlook, NoMemory>
        ensures answer { IfOk result (λ o. o.answer ≡ answer_of (host_peer self.now.register) (Step.Administer op.now)) }
        ensures undone { IfOk result (λ o. o.undone.items ≡ names_undone (host_peer self.now.register) op.now) }
        ensures count { IfOk result (λ o. SaysUndone o.answer (length o.undone.items)) }
    {
        foresee(alloc, self.peer(), op)
    }

    /// Makes a step of the host's own: an order, or the settling of what was held when it began.
    pub fn own(&mut self, step: Step) -> Result<Answer, Refusal>
        ensures made { OnOk result (self.new.register ≡ HostEvent.Made None step ∷ self.old.register) }
        ensures answer { IfOk result (λ answer. answer ≡ answer_of (host_peer self.old.register) step) }
        ensures refused { IfSome (own_refusal step) (λ refusal. (result ≡ Err refusal) × (self.new ≡ self.old)) }
        ensures cause { IfErr result (λ refusal. IsFor refusal (own_refusal step)) }
        ensures unchanged { OnErr result (self.new.register ≡ self.old.register) }
    {
        if let Some(refusal) = own_refusal(&step) {
            return Err(refusal);
        }
        self.make(None, step)
    }

    /// Saves all steps that were made.
    pub fn save(&mut self) -> Result<(), Refusal>
        ensures saved { OnOk result (self.new.register ≡ HostEvent.Saved ∷ self.old.register) }
        ensures kept { OnOk result (K.keeps self.new.keeper (host_peer self.old.register).journal) }
        ensures failed { IfErr result (λ refusal. refusal ≡ Refusal.DiskFault) }
        ensures unchanged { OnErr result (self.new.register ≡ self.old.register) }
    {
        self.keeper.save()?;
        self.register.saved_all(self.keeper.peer());
        Ok(())
    }

    /// Tells a link the answers of the steps that it asked for, if all that was made is saved, and says whether it does.
    /// Takes constant time, and no memory.
    pub fn tell(&mut self, link: LinkId) -> Result<bool, Refusal>
        ensures told { IfOk result (λ told. IsTrue told → self.new.register ≡ HostEvent.Told link ∷ self.old.register) }
        ensures kept { IfOk result (λ told. IsTrue told → ∥ K.keeps self.new.keeper (host_peer self.old.register).journal ∥₁) }
        ensures not_yet { IfOk result (λ told. told ≡ false → ¬ IsAllSaved self.old.register) }
        ensures not_yet_unchanged { IfOk result (λ told. told ≡ false → self.new.register ≡ self.old.register) }
        ensures refused { IfErr result (λ refusal. (refusal ≡ Refusal.NoLink) × (open_link self.old.register link ≡ None)) }
        ensures unchanged { OnErr result (self.new.register ≡ self.old.register) }
        ensures keeper { self.new.keeper ≡ self.old.keeper }
    {
        if self.register.open_link(link).is_none() {
            return Err(Refusal::NoLink);
        }
        if !self.register.is_all_saved(self.keeper.peer()) {
            return Ok(false);
        }
        self.register.told(link);
        Ok(true)
    }

    /// The next message of the journal for a link, which is saved, and none where it has all that is.
    pub fn next_item(&mut self, link: LinkId) -> Result<Option<Message>, Refusal>
        ensures given { IfOk result (λ found. IfSome found (λ m. self.new.register ≡ HostEvent.Gave link m ∷ self.old.register)) }
        ensures kept { IfOk result (λ found. IfSome found (λ m. ∥ ((J : List Message) × K.keeps self.new.keeper J × Contains J m) ∥₁)) }
        ensures none { IfOk result (λ found. IsNone found → IfSome (open_link self.old.register link) (λ x. length (saved_journal self.old.register) ≤ x.mark)) }
        ensures none_changed { IfOk result (λ found. IsNone found → self.new ≡ self.old) }
        ensures cause { IfErr result (λ refusal. IsForOrWantsMemory refusal (no_link self.old.register link)) }
        ensures unchanged { OnErr result (self.new ≡ self.old) }
    {
        let Some(known) = self.register.open_link(link) else {
            return Err(Refusal::NoLink);
        };
        if known.mark >= self.register.saved() {
            return Ok(None);
        }
        let Some(item) = self.keeper.peer().journal(known.mark) else {
            unreachable!()
        };
        let Ok(message) = item.copied() else {
            return Err(Refusal::NoMemory);
        };
        self.register.gave(link, known, &message);
        Ok(Some(message))
    }
}
