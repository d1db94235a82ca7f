//! A document that is open.
ghost use Rattle.std.specs.Prelude.{◌≡◌, ◌∷◌, Some, None, Err, false, OnOk, OnErr, IfOk, IfErr, IfSome, IsNone, IsTrue, Contains, length};
ghost use Rattle.peer_step.specs.declared.step.Step.{Step};
ghost use Rattle.peer_core.specs.Answers.{answer_of};
ghost use Rattle.host_core.specs.declared.event.HostEvent.{HostEvent};
ghost use Rattle.host_core.specs.Past.{host_peer, saved_journal, open_link, device_of};
ghost use Rattle.host_core.specs.Happens.{IsAllSaved};
ghost use Rattle.host_core.specs.Refusals.{ask_refusal};
ghost use Rattle.host_interface.specs.Endings.{ending_of};
ghost use Rattle.host_interface.specs.Settled.{IsSettled};

mod entering;
mod foreseen;
mod meeting;
mod ordering;
mod sealing;

use crate::endings::ending_of;
use crate::rules::Rules;
use edit_message::Message;
use element_name::NoMemory;
use host_core::{Host, LinkId, Refusal};
use host_interface::{NotMade, OpenFault};
use host_link::{Ending, Identity};
use host_seal::Sealer;
use host_store::StoreKeeper;
use line_read::step_line;
pub(crate) use ordering::Halt;
use peer_core::Peer;
use peer_disk::FileDisk;
use peer_step::{Answer, Step};
use peer_store::StoreFault;
use policy_book::AdminOp;
use std::alloc::Global;
use std::marker::Model;
use std::mem;

// The first rule of a new document: every person writes everywhere.
const FIRST_RULE: &[u8] = b"admin addauth 0 + all idu 0";

/// A document that is open: the host of its text, its rules, and how many persons and devices the host was told of.
/// Contracts see what has happened at the host, the newest first.
pub(crate) struct Opened<'a> {
    host: Host<StoreKeeper<FileDisk<'a>>>,
    rules: Rules,
    // What makes its seals, and how many messages the last one was of.
    sealer: Sealer,
    sealed: u32,
    // Whether something was made that isn't saved.
    has_changed: bool,
    // The numbers of the next person and the next device of whom the host is to be told.
    next_person: u32,
    next_site: u32,
}

impl<'a> Model for Opened<'a> {
    ghost use Rattle.std.specs.Prelude.{List};
    ghost use Rattle.host_core.specs.declared.event.HostEvent.{HostEvent};
    ghost use Rattle.host_document.specs.Settled.{IsAbreast};

    ghost Value = { List HostEvent };

    ghost view = { λ o. o.host.register };

    ghost invariant = { λ o. IsAbreast o.has_changed o.sealer o.host.register };
}

// By hand, so that it goes by one call.
impl Drop for Opened<'_> {
    fn drop(self) {
        let Opened {
            host,
            rules,
            sealer,
            sealed: _,
            has_changed: _,
            next_person: _,
            next_site: _,
        } = self;
        drop(host);
        drop(rules);
        drop(sealer);
    }
}

// The host of the document of this identity, whose steps stand in a file.
fn open_host<'a>(
    rt: &'a HostRuntime,
    path: String,
    identity: Identity,
) -> Result<Host<StoreKeeper<FileDisk<'a>>>, OpenFault>
    ensures { IfOk result (λ host. IsSettled host.register) }
{
    match StoreKeeper::open(rt.alloc(), FileDisk::new(rt, path)) {
        Ok(keeper) => Ok(Host::new(rt.alloc(), keeper, identity)),
        Err(StoreFault::NoMemory) => Err(OpenFault::NoMemory),
        Err(StoreFault::DiskFault) => Err(OpenFault::DiskFault),
        Err(_) => Err(OpenFault::Damaged),
    }
}

// The first rule of a new document.
fn first_rule(alloc: Global) -> Option<AdminOp> {
    match step_line(alloc, FIRST_RULE) {
        Ok(Step::Administer(op)) => Some(op),
        Ok(step) => {
            drop(step);
            None
        }
        Err(_) => None,
    }
}

// What a rule that isn't made leaves: want of memory is told, and else it just isn't.
fn unmade(why: NotMade) -> Result<bool, Ending> {
    match why {
        NotMade::NoMemory => Err(Ending::NoMemory),
        _ => Ok(false),
    }
}

// Whether a document is open behind its first rule.
fn opened_by(rule: Result<bool, Ending>) -> Result<(), OpenFault> {
    match rule {
        Ok(_) => Ok(()),
        Err(Ending::NoMemory) => Err(OpenFault::NoMemory),
        Err(_) => Err(OpenFault::DiskFault),
    }
}

impl<'a> Opened<'a> {
    // Opens the document of this identity, whose steps stand in a file, whatever was sealed.
    fn open_steps(
        rt: &'a HostRuntime,
        path: String,
        identity: Identity,
    ) -> Result<Opened<'a>, OpenFault> {
        let host = open_host(rt, path, identity)?;
        match Rules::of_peer(rt.alloc(), host.peer()) {
            Ok(rules) => Opened::begun(rt.alloc(), host, rules),
            Err(NoMemory) => {
                drop(host);
                Err(OpenFault::NoMemory)
            }
        }
    }

    // The document of a host with the rules of its peer, which has a first rule if it is new.
    fn begun(
        alloc: Global,
        host: Host<StoreKeeper<FileDisk<'a>>>,
        rules: Rules,
    ) -> Result<Opened<'a>, OpenFault>
        requires { IsSettled host.register }
    {
        let mut opened = Opened {
            host,
            rules,
            sealer: Sealer::new(),
            sealed: 0,
            has_changed: false,
            next_person: 0,
            next_site: 1,
        };
        match opened.begin(alloc) {
            Ok(()) => Ok(opened),
            Err(fault) => {
                drop(opened);
                Err(fault)
            }
        }
    }

    /// Its peer.
    pub(crate) fn peer(&self) -> &Peer
        ensures { result.now ≡ host_peer self.now }
    {
        self.host.peer()
    }

    // Makes a step of the host's own.
    fn own(&mut self, step: Step) -> Result<Answer, Ending>
        ensures made { OnOk result (self.new ≡ HostEvent.Made None step ∷ self.old) }
        ensures answer { IfOk result (λ answer. answer ≡ answer_of (host_peer self.old) step) }
        ensures unchanged { OnErr result (self.new ≡ self.old) }
    {
        match self.host.own(step) {
            Ok(answer) => {
                self.has_changed = true;
                Ok(answer)
            }
            Err(refusal) => Err(ending_of(refusal)),
        }
    }

    // Makes an operation of the host's own, behind which these are the rules.
    fn make_rule(&mut self, op: AdminOp, rules: Rules) -> Result<bool, Ending> {
        match self.own(Step::Administer(op)) {
            Ok(answer) => {
                drop(answer);
                drop(mem::replace(&mut self.rules, rules));
                Ok(true)
            }
            Err(why) => {
                drop(rules);
                Err(why)
            }
        }
    }

    // Makes an operation of the host's own, if the rules foresee that it can be made, and says whether it was.
    fn rule(&mut self, op: AdminOp) -> Result<bool, Ending> {
        match self.rules.behind(self.host.peer(), &op) {
            Ok(rules) => self.make_rule(op, rules),
            Err(why) => {
                drop(op);
                unmade(why)
            }
        }
    }

    // Makes the rule that a new document has.
    fn make_first(&mut self, alloc: Global) -> Result<(), OpenFault> {
        match first_rule(alloc) {
            Some(op) => opened_by(self.rule(op)),
            None => Err(OpenFault::NoMemory),
        }
    }

    // Makes the first rule, if nothing was ruled yet.
    fn begin(&mut self, alloc: Global) -> Result<(), OpenFault> {
        if self.host.peer().front() == 0 {
            self.make_first(alloc)
        } else {
            Ok(())
        }
    }

    /// Makes a step that a link asks for. Its answer is to be told once that is saved.
    pub(crate) fn ask(&mut self, link: LinkId, step: Step) -> Result<Answer, Ending>
        ensures made { OnOk result (self.new ≡ HostEvent.Made (Some link) step ∷ self.old) }
        ensures answer { IfOk result (λ answer. answer ≡ answer_of (host_peer self.old) step) }
        ensures refused { IfSome (ask_refusal self.old link step) (λ refusal. result ≡ Err (ending_of refusal)) }
        ensures unchanged { OnErr result (self.new ≡ self.old) }
    {
        match self.host.ask(link, step) {
            Ok(answer) => {
                self.has_changed = true;
                Ok(answer)
            }
            Err(refusal) => Err(ending_of(refusal)),
        }
    }

    /// Saves what was made, if anything was since the last time, and says whether.
    pub(crate) fn commit(&mut self) -> Result<bool, Ending>
        ensures saved { OnOk result (IsSettled self.new) }
        ensures peer { host_peer self.new ≡ host_peer self.old }
        ensures unchanged { OnErr result (self.new ≡ self.old) }
    {
        if !self.has_changed {
            return Ok(false);
        }
        self.host.register().past();
        match self.host.save() {
            Ok(()) => {
                self.has_changed = false;
                Ok(true)
            }
            Err(refusal) => Err(ending_of(refusal)),
        }
    }

    /// How many messages of its journal are saved.
    pub(crate) fn saved(&self) -> u32
        ensures { result ≡ length (saved_journal self.now) }
    {
        self.host.register().saved()
    }

    /// Whether a link lacks something that is saved.
    pub(crate) fn lacks(&self, link: LinkId) -> bool {
        match self.host.register().open_link(link) {
            Some(known) => known.mark < self.saved(),
            None => false,
        }
    }

    // Gives a link the next message. What has happened is a past, so that one was saved.
    fn give(&mut self, link: LinkId) -> Result<Option<Message>, Refusal>
        ensures given { IfOk result (λ found. IfSome found (λ m. self.new ≡ HostEvent.Gave link m ∷ self.old)) }
        ensures saved { IfOk result (λ found. IfSome found (λ m. Contains (saved_journal self.old) m)) }
        ensures none { IfOk result (λ found. IsNone found → self.new ≡ self.old) }
        ensures unchanged { OnErr result (self.new ≡ self.old) }
    {
        let found = self.host.next_item(link)?;
        self.host.register().past();
        Ok(found)
    }

    /// The next message for a link, which is saved; none where it has all that is.
    pub(crate) fn next_item(&mut self, link: LinkId) -> Result<Option<Message>, Ending>
        ensures given { IfOk result (λ found. IfSome found (λ m. self.new ≡ HostEvent.Gave link m ∷ self.old)) }
        ensures saved { IfOk result (λ found. IfSome found (λ m. Contains (saved_journal self.old) m)) }
        ensures none { IfOk result (λ found. IsNone found → self.new ≡ self.old) }
        ensures unchanged { OnErr result (self.new ≡ self.old) }
    {
        match self.give(link) {
            Ok(found) => Ok(found),
            Err(refusal) => Err(ending_of(refusal)),
        }
    }

    /// Whether a link is told the answers of the steps that it asked for, as it is once all that was made is saved. What has
    /// happened is a past, so that all was.
    pub(crate) fn tell(&mut self, link: LinkId) -> Result<bool, Ending>
        ensures told { IfOk result (λ told. IsTrue told → self.new ≡ HostEvent.Told link ∷ self.old) }
        ensures saved { IfOk result (λ told. IsTrue told → IsAllSaved self.old) }
        ensures not_yet { IfOk result (λ told. told ≡ false → self.new ≡ self.old) }
        ensures unchanged { OnErr result (self.new ≡ self.old) }
    {
        match self.host.tell(link) {
            Ok(told) => {
                self.host.register().past();
                Ok(told)
            }
            Err(refusal) => Err(ending_of(refusal)),
        }
    }

    /// Closes a link, if it is open.
    pub(crate) fn close(&mut self, link: LinkId)
        ensures closed { open_link self.new link ≡ None }
        ensures saved { saved_journal self.new ≡ saved_journal self.old }
        ensures peer { host_peer self.new ≡ host_peer self.old }
    {
        let _ = self.host.close(link);
    }

    /// Closes a device for good, if the host was told of it, and its link.
    pub(crate) fn close_device(&mut self, site: u16)
        ensures closed { device_of site self.new ≡ None }
        ensures saved { saved_journal self.new ≡ saved_journal self.old }
        ensures peer { host_peer self.new ≡ host_peer self.old }
    {
        let _ = self.host.close_device(site);
    }
}
