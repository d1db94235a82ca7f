//! A user's own edits.
ghost use Rattle.std.specs.Prelude.{◌≡◌, Some, option_map, ◌<◌, ◌==◌, false, length, slice_index_or, IfOk, OnOk, OnErr, IsOk, IsTrue};
ghost use Rattle.element_name.specs.Name.{start};
ghost use Rattle.element_name.specs.declared.limits.TheConstants.{MAX_STAMP};
ghost use Rattle.coop_request.specs.declared.request.TheConstants.{MAX_REQUESTS};
ghost use Rattle.peer_core.specs.Peer.{front, history, shown_elements, integrate};
ghost use Rattle.peer_core.specs.Waiting.{MayIntegrate};
ghost use Rattle.peer_core.specs.Answers.{answer_edit, answer_denied, own_verdict};
ghost use Rattle.peer_core.specs.Edited.{answer_refused, answer_edited};
ghost use Rattle.peer_core.specs.After.{changed_by, peer_after, takes_none};
ghost use Rattle.peer_step.specs.Lent.{local_edit_lent, edit_answer_of};
ghost use Rattle.coop_request.specs.LentEdit.{edit_lent};
ghost use Rattle.peer_tables.specs.Derived.{greatest_stamp};
ghost use Rattle.peer_core.specs.Local.{fits_text, anchor_at, edit_of, new_request};

use super::Peer;
use auth_match::Verdict;
use check_local::LocalVerdict;
use coop_request::{LentEdit, LentRequest};
use edit_message::Message;
use element_name::{MAX_STAMP, Name, NoMemory};
use peer_step::{Answer, EditAnswer, LentLocalEdit, LocalEdit, Step};

/// Why an own edit isn't made. It takes a few words, where an answer has room for a request.
#[derive(Clone, Copy)]
pub(super) enum EditRefusal {
    BadPlace(u32),
    ClockEnd,
    HistoryFull,
    Denied { version: u32, by: Option<u32> },
}

impl EditRefusal {
    // The answer.
    fn answer(self) -> Answer
        ensures { result ≡ answer_refused self }
    {
        match self {
            EditRefusal::BadPlace(len) => Answer::BadPlace(len),
            EditRefusal::ClockEnd => Answer::ClockEnd,
            EditRefusal::HistoryFull => Answer::HistoryFull,
            EditRefusal::Denied { version, by } => Answer::Denied { version, by },
        }
    }

    // What is told of the answer.
    fn told(self) -> EditAnswer
        ensures { edit_answer_of (answer_refused self) ≡ Some result }
    {
        match self {
            EditRefusal::BadPlace(len) => EditAnswer::BadPlace(len),
            EditRefusal::ClockEnd => EditAnswer::ClockEnd,
            EditRefusal::HistoryFull => EditAnswer::HistoryFull,
            EditRefusal::Denied { version, by } => EditAnswer::Denied { version, by },
        }
    }
}

// What became of an own edit: it was refused, or this request made it.
#[derive(Drop)]
enum Edited<'a> {
    Refused(EditRefusal),
    Made(LentRequest<'a>),
}

// What is told of the request that made an edit.
fn done(request: &LentRequest<'_>) -> EditAnswer
    ensures { result ≡ EditAnswer.Done request.now.id request.now.version }
{
    EditAnswer::Done {
        id: request.id(),
        version: request.version(),
    }
}

impl Peer {
    /// Makes an edit of its own, as `step` does, where its piece is lent and its request isn't given back: so no piece is
    /// moved. Takes the time and the memory of `step`, and has its clauses.
    pub fn edit(&mut self, edit: LentLocalEdit<'_>) -> Result<EditAnswer, NoMemory>
        ensures answer { IfOk result (λ told. edit_answer_of (answer_edit self.old (local_edit_lent edit.entry)) ≡ Some told) }
        ensures after { OnOk result (self.new ≡ peer_after self.old (Step.Edit (local_edit_lent edit.entry))) }
        ensures unchanged { OnErr result (self.new ≡ self.old) }
        ensures takes_none { IsTrue (takes_none (answer_edit self.old (local_edit_lent edit.entry))) → IsOk result }
    {
        match self.edited(&edit) {
            Ok(Edited::Made(request)) => Ok(done(&request)),
            Ok(Edited::Refused(refusal)) => Ok(refusal.told()),
            Err(NoMemory) => Err(NoMemory),
        }
    }

    // The same of a whole edit, with its request in the answer.
    pub(super) fn edit_whole(&mut self, edit: &LocalEdit) -> Result<Answer, NoMemory>
        ensures answer { IfOk result (λ answer. answer ≡ answer_edit self.old edit.now) }
        ensures after { OnOk result (self.new ≡ changed_by self.old (Step.Edit edit.now) (answer_edit self.old edit.now)) }
        ensures unchanged { OnErr result (self.new ≡ self.old) }
        ensures takes_none { IsTrue (takes_none (answer_edit self.old edit.now)) → IsOk result }
    {
        match self.edited(&edit.lent()) {
            Ok(Edited::Made(request)) => Ok(Answer::Done(request.request())),
            Ok(Edited::Refused(refusal)) => Ok(refusal.answer()),
            Err(NoMemory) => Err(NoMemory),
        }
    }

    fn edited<'a>(&mut self, edit: &LentLocalEdit<'a>) -> Result<Edited<'a>, NoMemory>
        ensures answer { IfOk result (λ edited. answer_edited edited ≡ answer_edit self.old (local_edit_lent edit.now)) }
        ensures after { OnOk result (self.new ≡ changed_by self.old (Step.Edit (local_edit_lent edit.now)) (answer_edit self.old (local_edit_lent edit.now))) }
        ensures unchanged { OnErr result (self.new ≡ self.old) }
        ensures takes_none { IsTrue (takes_none (answer_edit self.old (local_edit_lent edit.now))) → IsOk result }
    {
        if let Some(refusal) = self.edit_refusal(edit) {
            return Ok(Edited::Refused(refusal));
        }
        let request = self.new_request(edit);
        if let Some(denied) = self.denial(&request) {
            return Ok(Edited::Refused(denied));
        }
        match self.make(&request) {
            Ok(()) => Ok(Edited::Made(request)),
            Err(NoMemory) => Err(NoMemory),
        }
    }

    // That the policy denies a request that may be made.
    fn denial(&self, request: &LentRequest<'_>) -> Option<EditRefusal>
        requires may { MayIntegrate self.now (Message.Coop request.now) }
        requires here { request.now.version ≡ front self.now }
        ensures { option_map answer_refused result ≡ answer_denied request.now (own_verdict self.now request.now) }
    {
        match self.journal.verdict(request) {
            LocalVerdict::Denied { version, by } => Some(EditRefusal::Denied { version, by }),
            LocalVerdict::Granted => None,
        }
    }

    // A request that the front grants joins the journal.
    fn make(&mut self, request: &LentRequest<'_>) -> Result<(), NoMemory>
        requires may { MayIntegrate self.old (Message.Coop request.now) }
        requires here { request.now.version ≡ front self.old }
        requires granted { own_verdict self.old request.now ≡ Verdict.Granted }
        ensures after { OnOk result (self.new ≡ integrate self.old (Message.Coop request.now)) }
        ensures unchanged { OnErr result (self.new ≡ self.old) }
    {
        let state = self.journal.granted_state(request);
        self.take_request(request, Some(state))?;
        Ok(())
    }

    // The request of an edit in place, where the clock and the history have room.
    fn new_request<'a>(&self, edit: &LentLocalEdit<'a>) -> LentRequest<'a>
        requires place { IsTrue (fits_text (length (shown_elements self.now)) (local_edit_lent edit.now)) }
        requires clock { (greatest_stamp (history self.now) == MAX_STAMP) ≡ false }
        requires room { length (history self.now) < MAX_REQUESTS }
        ensures value { result ≡ new_request self.now (local_edit_lent edit.now) }
        ensures may { MayIntegrate self.now (Message.Coop result) }
    {
        let Some(id) = Name::read(self.journal.stamp() + 1, self.site) else {
            unreachable!()
        };
        match LentRequest::checked(id, self.journal.front(), self.edit_of(edit)) {
            Ok(request) => request,
            Err(_) => unreachable!(),
        }
    }

    fn edit_of<'a>(&self, edit: &LentLocalEdit<'a>) -> LentEdit<'a>
        ensures { edit_lent result ≡ edit_of (shown_elements self.now) (local_edit_lent edit.now) }
    {
        match edit {
            LentLocalEdit::Insert { at, letter } => LentEdit::Insert {
                after: self.anchor_at(*at),
                letter: letter.again(),
            },
            LentLocalEdit::Delete { at } => LentEdit::Delete {
                target: self.element_at(*at),
            },
            LentLocalEdit::Update { at, letter } => LentEdit::Update {
                target: self.element_at(*at),
                letter: letter.again(),
            },
        }
    }

    fn anchor_at(&self, at: u32) -> Name
        ensures { result ≡ anchor_at (shown_elements self.now) at }
    {
        if at == 0 {
            return Name::start();
        }
        self.element_at(at - 1)
    }

    fn element_at(&self, at: u32) -> Name
        ensures { result ≡ slice_index_or (shown_elements self.now) at start }
    {
        match self.journal.shown_at(at) {
            Some(name) => name,
            None => Name::start(),
        }
    }
}
