//! What is kept of a journal while it is read.
ghost use Rattle.std.specs.Prelude.{◌≡◌, ◌+◌, ◌||◌, [], ◌∷◌, ◌++◌, true, false, is_none, map, length, List, IfOk, IfErr, OnOk};
ghost use Rattle.element_name.specs.Name.{Name, name_eq, has_name};
ghost use Rattle.edit_message.specs.declared.message.Message.{Message};
ghost use Rattle.edit_message.specs.Missing.{missing_end};
ghost use Rattle.peer_tables.specs.Journal.{IsWithin};
ghost use Rattle.peer_tables.specs.Kept.{names_after};
ghost use Rattle.audit_cert.specs.Basis.{IsBasisOf, is_known, is_placeable, may_join, may_extend};
ghost use Rattle.coop_request.specs.Request.{IsAccepted};
ghost use Rattle.audit_cert.specs.Journals.{IsFailOf};
ghost use Rattle.audit_cert.specs.Audit.{AreItems, IsFaultIn, messages_of_frames};

use crate::elements::Elements;
use crate::fail::CertFail;
use crate::fault::AuditFault;
use crate::ids::Ids;
use crate::kept_frame::KeptFrame;
use admin_log::{AdminLog, LogFault};
use coop_request::{Edit, MAX_REQUESTS, Request};
use edit_message::{Key, Message};
use element_name::{Name, NoMemory};
use peer_core::JournalItem;
use policy_book::{AdminOp, Entry, Extent};
use std::alloc::Global;

/// Of a journal its log, its elements in text order, and the names of its requests.
#[derive(Drop)]
pub(crate) struct Basis<E> {
    pub(crate) log: AdminLog,
    pub(crate) elements: E,
    pub(crate) ids: Ids,
}

// Whether the ends of the span that an operation makes are elements.
fn has_ends<E: Elements>(elements: &E, op: &AdminOp) -> bool
    ensures { result ≡ is_none (missing_end (E.names elements.now) op.now) }
{
    match op {
        AdminOp::AddObj(_, Extent::Span(first, last)) => {
            elements.knows(*first) && elements.knows(*last)
        }
        _ => true,
    }
}

// Takes an entry in that may be the next, and answers whether it was taken.
fn take_entry<E: Elements>(log: &mut AdminLog, elements: &E, entry: Entry) -> Result<bool, NoMemory>
    ensures test { IfOk result (λ taken. taken ≡ may_extend log.old (E.names elements.now) entry) }
    ensures log { IfOk result (λ taken. taken ≡ true → log.new ≡ log.old ++ entry ∷ []) }
{
    if !has_ends(elements, entry.op()) {
        return Ok(false);
    }
    match log.push(entry) {
        Ok(()) => Ok(true),
        Err(LogFault::NoMemory) => Err(NoMemory),
        Err(_) => Ok(false),
    }
}

// Puts the element of an insert in, and answers whether it was put in, or the target of another edit is there.
fn place<E: Elements>(elements: &mut E, request: Request) -> Result<bool, NoMemory>
    ensures test { IfOk result (λ placed. placed ≡ is_placeable (E.names elements.old) request.id request.edit) }
    ensures names { IfOk result (λ placed. placed ≡ true → E.names elements.new ≡ names_after (E.names elements.old) request.id request.edit) }
{
    match request.edit() {
        Edit::Insert { after, .. } => elements.put(request.id(), after),
        Edit::Delete { target } => Ok(elements.knows(target)),
        Edit::Update { target, .. } => Ok(elements.knows(target)),
    }
}

// Takes a request in that may join, and answers whether it was taken.
fn take_request<E: Elements>(
    front: u32,
    elements: &mut E,
    ids: &mut Ids,
    request: Request,
) -> Result<bool, NoMemory>
    requires { has_name ids.old request.id ≡ false }
    ensures test { IfOk result (λ taken. taken ≡ may_join front (E.names elements.old) (length ids.old) request) }
    ensures accepted { IsAccepted request }
    ensures names { IfOk result (λ taken. taken ≡ true → E.names elements.new ≡ names_after (E.names elements.old) request.id request.edit) }
    ensures noted { IfOk result (λ taken. taken ≡ true → ((n : Name) → has_name ids.new n ≡ (name_eq request.id n || has_name ids.old n))) }
    ensures count { IfOk result (λ taken. taken ≡ true → length ids.new ≡ length ids.old + 1) }
{
    if ids.len() >= MAX_REQUESTS || request.version() > front {
        return Ok(false);
    }
    if !place(elements, request)? {
        return Ok(false);
    }
    ids.put(request.id())?;
    Ok(true)
}

impl<E: Elements> Basis<E> {
    fn new(alloc: Global, elements: E) -> Result<Basis<E>, NoMemory>
        requires { E.names elements ≡ [] }
        ensures { IfOk result (λ b. IsBasisOf [] b.log (E.names b.elements) b.ids) }
    {
        Ok(Basis {
            log: AdminLog::new(alloc)?,
            elements,
            ids: Ids::new(alloc),
        })
    }

    // Whether a message of this key was taken in.
    fn knows(&self, key: Key) -> bool
        ensures { result ≡ is_known (length self.now.log) self.now.ids key }
    {
        match key {
            Key::Coop(id) => self.ids.has(id),
            Key::Admin(version) => version <= self.log.len(),
        }
    }

    // Takes the next message of a journal in, and answers whether it was taken, which any is that may follow.
    fn take(&mut self, message: Message) -> Result<bool, NoMemory>
        ensures taken { IfOk result (λ taken. taken ≡ true → ((J : List Message) → IsBasisOf J self.old.log (E.names self.old.elements) self.old.ids → IsBasisOf (J ++ message ∷ []) self.new.log (E.names self.new.elements) self.new.ids)) }
        ensures refused { IfOk result (λ taken. taken ≡ false → ((J : List Message) → IsBasisOf J self.old.log (E.names self.old.elements) self.old.ids → ¬ IsWithin (J ++ message ∷ []))) }
    {
        if self.knows(message.key()) {
            return Ok(false);
        }
        match message {
            Message::Coop(request) => {
                let front = self.log.len();
                let joined = take_request(front, &mut self.elements, &mut self.ids, request)?;
                Ok(joined)
            }
            Message::Admin(entry) => {
                let pushed = take_entry(&mut self.log, &self.elements, entry)?;
                Ok(pushed)
            }
        }
    }

    // Takes the messages of a journal in, where none was taken in yet.
    fn take_items(&mut self, journal: &[JournalItem<'_>]) -> Result<(), CertFail>
        requires { IsBasisOf [] self.old.log (E.names self.old.elements) self.old.ids }
        ensures ok { OnOk result (IsBasisOf journal.now self.new.log (E.names self.new.elements) self.new.ids) }
        ensures fail { IfErr result (IsFailOf journal.now) }
    {
        for place in 0..journal.len() {
            let message = journal[place].copied()?;
            let taken = self.take(message)?;
            if !taken {
                return Err(CertFail::NotJournal(place + 1));
            }
        }
        Ok(())
    }

    /// What is kept of these messages, where no elements are kept yet. Takes time in their number, for each also that of
    /// a look-up among the names and one among the elements, and memory for each name, each element and the log.
    ///
    /// Fails with the number of the first with which they are no journal, or one above its limits, and where memory is
    /// wanting.
    pub(crate) fn of(
        alloc: Global,
        elements: E,
        journal: &[JournalItem<'_>],
    ) -> Result<Basis<E>, CertFail>
        requires { E.names elements ≡ [] }
        ensures ok { IfOk result (λ b. IsBasisOf journal.now b.log (E.names b.elements) b.ids) }
        ensures fail { IfErr result (IsFailOf journal.now) }
    {
        let mut basis = Basis::new(alloc, elements)?;
        basis.take_items(journal)?;
        Ok(basis)
    }

    // Takes the messages of frames in, where none was taken in yet.
    fn take_frames(&mut self, frames: &[KeptFrame]) -> Result<(), AuditFault>
        requires { IsBasisOf [] self.old.log (E.names self.old.elements) self.old.ids }
        ensures ok { OnOk result (IsBasisOf (messages_of_frames frames.now) self.new.log (E.names self.new.elements) self.new.ids) }
        ensures items { OnOk result (AreItems frames.now) }
        ensures fault { IfErr result (IsFaultIn frames.now) }
    {
        for place in 0..frames.len() {
            let item = frames[place].message()?;
            let Some(message) = item else {
                return Err(AuditFault::NotJournal(place + 1));
            };
            let taken = self.take(message)?;
            if !taken {
                return Err(AuditFault::NotJournal(place + 1));
            }
        }
        Ok(())
    }

    /// What is kept of the messages of frames, as [`Basis::of`] keeps it.
    ///
    /// Fails with the number of the first frame that is no message, or with which the messages are no journal, or one
    /// above its limits; and where memory is wanting.
    pub(crate) fn of_frames(
        alloc: Global,
        elements: E,
        frames: &[KeptFrame],
    ) -> Result<Basis<E>, AuditFault>
        requires { E.names elements ≡ [] }
        ensures ok { IfOk result (λ b. IsBasisOf (messages_of_frames frames.now) b.log (E.names b.elements) b.ids) }
        ensures items { OnOk result (AreItems frames.now) }
        ensures fault { IfErr result (IsFaultIn frames.now) }
    {
        let mut basis = Basis::new(alloc, elements)?;
        basis.take_frames(frames)?;
        Ok(basis)
    }
}
