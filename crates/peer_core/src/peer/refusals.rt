//! When a step is refused.
ghost use Rattle.std.specs.Prelude.{◌≡◌, Some, option_map};
ghost use Rattle.element_name.specs.Cases.{first_of};
ghost use Rattle.peer_core.specs.Answers.{rows_of_edit, rows_of_log, rows_of_validation, rows_of_operation, rows_of_administer, rows_of_message};
ghost use Rattle.peer_core.specs.Edited.{answer_refused};
ghost use Rattle.peer_core.specs.Local.{fits_text};
ghost use Rattle.peer_step.specs.Lent.{local_edit_lent, answer_told};

use super::Peer;
use super::edits::EditRefusal;
use coop_request::LentRequest;
use edit_message::{Message, Missing};
use element_name::{MAX_STAMP, MAX_VERSION, Name};
use peer_step::{Answer, LentLocalEdit, RequestAnswer};
use peer_tables::validated_by;
use policy_book::{AdminOp, Entry};
use request_state::State;

impl Peer {
    pub(super) fn edit_refusal(&self, edit: &LentLocalEdit<'_>) -> Option<EditRefusal>
        ensures { option_map answer_refused result ≡ first_of (rows_of_edit self.now (local_edit_lent edit.now)) }
    {
        let len = self.journal.shown();
        if !fits_text(len, edit) {
            return Some(EditRefusal::BadPlace(len));
        }
        if self.journal.stamp() == MAX_STAMP {
            return Some(EditRefusal::ClockEnd);
        }
        if self.journal.is_full() {
            return Some(EditRefusal::HistoryFull);
        }
        None
    }

    pub(super) fn log_refusal(&self) -> Option<Answer>
        ensures { result ≡ first_of (rows_of_log self.now) }
    {
        if self.site != 0 {
            return Some(Answer::NotAdministrator);
        }
        if self.journal.front() >= MAX_VERSION {
            return Some(Answer::LogFull);
        }
        None
    }

    pub(super) fn administer_refusal(&self, op: &AdminOp) -> Option<Answer>
        ensures { result ≡ first_of (rows_of_administer self.now op.now) }
    {
        if let Some(refusal) = self.log_refusal() {
            return Some(refusal);
        }
        self.op_refusal(op)
    }

    fn op_refusal(&self, op: &AdminOp) -> Option<Answer>
        ensures { result ≡ first_of (rows_of_operation self.now op.now) }
    {
        if let Some(fault) = self.journal.legal(op) {
            return Some(Answer::Refused(fault));
        }
        if let Some(end) = self.journal.missing_end(op) {
            return Some(Answer::NotHere(end));
        }
        let id = validated_by(op)?;
        self.validate_refusal(id)
    }

    fn validate_refusal(&self, id: Name) -> Option<Answer>
        ensures { result ≡ first_of (rows_of_validation self.now (Some id)) }
    {
        let Some(state) = self.journal.state(id) else {
            return Some(Answer::NotHere(Missing::Element(id)));
        };
        if id.site() == 0 {
            return Some(Answer::NeedsNone);
        }
        match state {
            State::Invalid { .. } => Some(Answer::AlreadyInvalid(*state)),
            _ => None,
        }
    }

    pub(super) fn receive_refusal(&self, message: &Message) -> Option<Answer>
        ensures { result ≡ first_of (rows_of_message self.now message.now) }
    {
        match message {
            Message::Coop(request) => match self.request_refusal(&request.lent()) {
                Some(refusal) => Some(refusal.answer()),
                None => None,
            },
            Message::Admin(entry) => self.entry_refusal(entry),
        }
    }

    pub(super) fn request_refusal(&self, request: &LentRequest<'_>) -> Option<RequestAnswer>
        ensures { option_map answer_told result ≡ first_of (rows_of_message self.now (Message.Coop request.now)) }
    {
        if request.user() == self.site {
            return Some(RequestAnswer::OwnSite);
        }
        if self.journal.is_full() {
            return Some(RequestAnswer::HistoryFull);
        }
        None
    }

    fn entry_refusal(&self, entry: &Entry) -> Option<Answer>
        ensures { result ≡ first_of (rows_of_message self.now (Message.Admin entry.now)) }
    {
        if self.site == 0 {
            return Some(Answer::OwnLog);
        }
        if entry.version() != self.journal.front() + 1 {
            return None;
        }
        match self.journal.legal(entry.op()) {
            Some(fault) => Some(Answer::Illegal(fault)),
            None => None,
        }
    }
}

fn fits_text(len: u32, edit: &LentLocalEdit<'_>) -> bool
    ensures { result ≡ fits_text len (local_edit_lent edit.now) }
{
    match edit {
        LentLocalEdit::Insert { at, .. } => *at <= len,
        LentLocalEdit::Delete { at } => *at < len,
        LentLocalEdit::Update { at, .. } => *at < len,
    }
}
