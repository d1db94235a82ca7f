//! A document, as a house asks it.
ghost use Rattle.std.specs.Prelude.{◌≡◌, ◌⊎◌, Some, None, Err, false, is_some, length, Contains};
ghost use Rattle.std.specs.Prelude.{OnOk, OnErr, IfOk, IfSome, IsErrOf, IsNone, IsSome, IsSomeAnd, IsTrue};
ghost use Rattle.peer_step.specs.declared.step.Step.{Step};
ghost use Rattle.peer_core.specs.Answers.{answer_of};
ghost use Rattle.host_core.specs.declared.event.HostEvent.{HostEvent};
ghost use Rattle.host_core.specs.Past.{host_peer, saved_journal, open_link, device_of};
ghost use Rattle.host_core.specs.Happens.{IsAllSaved};
ghost use Rattle.host_core.specs.Refusals.{ask_refusal};
ghost use Rattle.host_renewal.specs.declared.fault.RenewalFault.{RenewalFault};
ghost use Rattle.host_renewal.specs.Room.{IsTooLong, IsTooRuled};
ghost use Rattle.host_interface.specs.Admitted.{IsAdmitted};
ghost use Rattle.host_interface.specs.Endings.{ending_of};
ghost use Rattle.host_interface.specs.Foreseen.{IsForeseen};
ghost use Rattle.host_interface.specs.HappensAt.{HappensAt};
ghost use Rattle.host_interface.specs.Renewed.{IsRenewedBy};
ghost use Rattle.host_interface.specs.Rows.{MakesRow};
ghost use Rattle.host_interface.specs.Sealing.{IsOpenedBy, IsSealOf};
ghost use Rattle.host_interface.specs.Settled.{IsSettled};

use crate::fault::{OpenFault, RowFault};
use edit_message::Message;
use element_name::NoMemory;
use host_core::{LinkId, Role};
use host_link::{Claim, Ending, Identity};
use host_people::People;
use host_renewal::{Former, RenewalFault};
use host_seal::Seal;
use peer_step::Answer;
use std::alloc::{AllocError, Global};

/// A document of a folder: closed as long as nobody is there, and else the host of its text. What it opens may borrow the
/// runtime that it is opened with.
pub trait HouseDocument<'a>: Drop {
    ghost use Rattle.std.specs.Prelude.{List, Option};
    ghost use Rattle.host_core.specs.declared.event.HostEvent.{HostEvent};

    // What has happened at its host since it was opened, the newest first; none where it isn't open.
    ghost past: { Self → Option (List HostEvent) };

    /// A document that is closed, and has taken the place of these.
    fn new(name: String, identity: Identity, formers: Vec<Former>) -> Self
        ensures { past result ≡ None };

    /// A document whose identity can't be read. It is never opened.
    fn lost(name: String, fault: OpenFault, formers: Vec<Former>) -> Self
        ensures { past result ≡ None };

    /// Its name.
    fn name(&self) -> &str;

    /// Its identity: zeros where it is lost.
    fn identity(&self) -> Identity;

    /// The documents whose place it has taken, the oldest first.
    fn formers(&self) -> &[Former];

    /// Gives it another name.
    fn rename(&mut self, name: String)
        ensures { self.new ≡ self.old };

    /// Whether it is open.
    fn is_open(&self) -> bool
        ensures { result ≡ is_some (past self.now) };

    /// Whether it was put away.
    fn is_gone(&self) -> bool
        ensures { IsTrue result → past self.now ≡ None };

    /// The word for how it stands: `closed`, `open`, or why it can't be opened.
    fn state_word(&self) -> &'static str;

    /// What was found of it: the word for how it stands, and how many messages it has. Where these, or their seal, aren't what
    /// was written, that a copy is to be restored.
    fn found(&self, alloc: Global) -> Result<String, AllocError>;

    /// Opens it, unless it is open. It takes the time of its steps. What was put away, or has no identity, isn't opened, nor
    /// is one whose saved messages don't begin with what was sealed, if that is known.
    fn open(
        &mut self,
        rt: &'a HostRuntime,
        folder: &str,
        seal: Option<Seal>,
    ) -> Result<(), OpenFault>
        ensures opened { OnOk result (IsSome (past self.new)) }
        ensures sealed { OnOk result (past self.old ≡ None → IsOpenedBy seal (past self.new)) }
        ensures closed { OnErr result (past self.new ≡ None) }
        ensures stays_open { IsSome (past self.old) → self.new ≡ self.old };

    /// Closes it. What wasn't saved is lost, so [`commit`](HouseDocument::commit) comes first.
    fn shut(&mut self)
        ensures { past self.new ≡ None };

    /// Closes it as one that can't be opened.
    fn give_up(&mut self, fault: OpenFault)
        ensures { past self.new ≡ None };

    /// Closes it as one that isn't opened any more, for this reason.
    fn lose(&mut self, fault: OpenFault)
        ensures { past self.new ≡ None };

    /// Closes it, as it was put away.
    fn put_away(&mut self)
        ensures { past self.new ≡ None };

    /// Admits a link of a device of a person, by what it says of itself. A writer's site becomes a user, and that is saved. A
    /// link that knows a document whose place this one has taken is told so.
    fn admit(
        &mut self,
        people: &People,
        person: u16,
        role: Role,
        claim: &Claim,
    ) -> Result<LinkId, Ending>
        ensures { IfOk result (λ link. IsSomeAnd (past self.new) (IsAdmitted claim.now link)) };

    /// Closes a link.
    fn close(&mut self, link: LinkId)
        ensures { IfSome (past self.new) (λ events. open_link events link ≡ None) };

    /// Closes a device and its link, if the host was told of it.
    fn close_device(&mut self, site: u16)
        ensures { IfSome (past self.new) (λ events. device_of site events ≡ None) };

    /// Takes a message that came on a link. Its answer is to be told once it is saved.
    fn take(&mut self, link: LinkId, message: Message) -> Result<Answer, Ending>
        ensures made { OnOk result (HappensAt (past self.old) (past self.new) (HostEvent.Made (Some link) (Step.Receive message))) }
        ensures answer { IfOk result (λ answer. IfSome (past self.old) (λ events. answer ≡ answer_of (host_peer events) (Step.Receive message))) }
        ensures refused { IfSome (past self.old)
            (λ events. IfSome (ask_refusal events link (Step.Receive message)) (λ refusal. result ≡ Err (ending_of refusal))) }
        ensures unchanged { OnErr result (self.new ≡ self.old) };

    /// Whether a link is told the answers of the steps that it asked for, as it is once all that was made is saved.
    fn tell(&mut self, link: LinkId) -> Result<bool, Ending>
        ensures told { IfOk result (λ told. IsTrue told → HappensAt (past self.old) (past self.new) (HostEvent.Told link)) }
        ensures saved { IfOk result (λ told. IsTrue told → IfSome (past self.old) IsAllSaved) }
        ensures not_yet { IfOk result (λ told. told ≡ false → self.new ≡ self.old) }
        ensures unchanged { OnErr result (self.new ≡ self.old) };

    /// Whether a link lacks something that is saved.
    fn lacks(&self, link: LinkId) -> bool;

    /// The next message for a link, which is saved; none where it has all that is.
    fn next_item(&mut self, link: LinkId) -> Result<Option<Message>, Ending>
        ensures given { IfOk result (λ found. IfSome found (λ m. HappensAt (past self.old) (past self.new) (HostEvent.Gave link m))) }
        ensures saved { IfOk result (λ found. IfSome found (λ m. IfSome (past self.old) (λ events. Contains (saved_journal events) m))) }
        ensures none { IfOk result (λ found. IsNone found → self.new ≡ self.old) }
        ensures unchanged { OnErr result (self.new ≡ self.old) };

    /// What the operation of a line would do now: the line of the answer that it would get, and behind it a line for each
    /// user whose edits it would undo, with how many. Nothing changes.
    fn would(&self, alloc: Global, line: &str) -> Result<Vec<u8>, RowFault>
        ensures { IfOk result (λ answers. IsSomeAnd (past self.now) (λ events. IsForeseen line.now events answers.items)) };

    /// Makes a row of orders, all of it or none, and gives the lines of the answers. Where a row breaks off in its middle,
    /// the document is closed as it was saved the last time, so that nothing of the row stays.
    fn order(&mut self, alloc: Global, link: LinkId, lines: &str) -> Result<Vec<u8>, RowFault>
        ensures whole { IfOk result (λ answers. MakesRow link lines.now (past self.old) (past self.new) answers.items) }
        ensures nothing { OnErr result ((self.new ≡ self.old) ⊎ (past self.new ≡ None)) };

    /// Saves what was made since the last time: one save for all of it. False where nothing was made.
    fn commit(&mut self) -> Result<bool, Ending>
        ensures saved { OnOk result (IfSome (past self.new) IsSettled) }
        ensures stays_open { IsSome (past self.old) → IsSome (past self.new) }
        ensures unchanged { OnErr result (self.new ≡ self.old) };

    /// How many messages of its journal are saved.
    fn saved(&self) -> u32
        ensures { IfSome (past self.now) (λ events. result ≡ length (saved_journal events)) };

    /// The seal of what is saved, if the last one that was noted lacks some of it. Takes the time of what is new since then, and
    /// memory for the frame of one message.
    fn next_seal(&mut self, alloc: Global) -> Result<Option<Seal>, NoMemory>
        ensures seal { IfOk result (λ found. IfSome found (λ seal. IsSomeAnd (past self.old) (IsSealOf seal))) }
        ensures unchanged { self.new ≡ self.old };

    /// The seal of all that is saved of it; none where it isn't open.
    fn whole_seal(&mut self, alloc: Global) -> Result<Option<Seal>, NoMemory>
        ensures seal { IfOk result (λ found. IfSome found (λ seal. IsSomeAnd (past self.old) (IsSealOf seal))) }
        ensures found { IfOk result (λ found. is_some found ≡ is_some (past self.old)) }
        ensures unchanged { self.new ≡ self.old };

    /// Notes a seal that stands on the disk.
    fn note_sealed(&mut self, seal: &Seal)
        ensures { self.new ≡ self.old };

    /// Its text, as it shows.
    fn text(&self, alloc: Global) -> Result<Vec<u8>, NoMemory>;

    /// The frames of its journal as far as it is saved, and where it is wanted End and their certificate.
    fn journal(&self, alloc: Global, is_certified: bool) -> Result<Vec<u8>, NoMemory>;

    /// Makes a renewal of it in a file that is empty or isn't there, saves that, and gives its seal. It is open, and stays as it is.
    /// Where it gives up the file may have a part.
    ///
    /// Takes the time of two renewals of its peer, and a save.
    fn make_renewal(&self, rt: &HostRuntime, path: String) -> Result<Seal, RenewalFault>
        ensures renewed { IfOk result (λ seal. IsSomeAnd (past self.now) (λ events. IsRenewedBy events seal)) }
        ensures too_many_pieces { IsErrOf result RenewalFault.TooManyPieces → IsSomeAnd (past self.now) (λ events. IsTooLong (host_peer events)) }
        ensures too_many_entries { IsErrOf result RenewalFault.TooManyEntries → IsSomeAnd (past self.now) (λ events. IsTooRuled (host_peer events)) }
        ensures closed { past self.now ≡ None → result ≡ Err RenewalFault.NotOpen };

    /// Closes it, as its place was taken by its renewal, which has this identity and these former documents.
    fn give_way(&mut self, identity: Identity, formers: Vec<Former>)
        ensures { past self.new ≡ None };
}
