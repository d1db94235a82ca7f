//! Held messages that are due.
ghost use Rattle.std.specs.Prelude.{◌≡◌, ℕ, ◌∷◌, ◌++◌, [], Some, None, List, false, position, slice_get, option_and_then, IfOk, OnOk, OnErr, IsOk, IsTrue};
ghost use Rattle.peer_tables.specs.Derived.{is_due, finds_no_room};
ghost use Rattle.peer_tables.specs.Journal.{FollowsJournal};
ghost use Rattle.peer_core.specs.Answers.{answer_settle, outcome_of, fault_in};
ghost use Rattle.peer_core.specs.After.{changed_by, takes_none};

use super::Peer;
use super::waking::{met_by, wake_by};
use crate::due::DueIn;
use edit_message::Message;
use element_name::NoMemory;
use peer_step::{Answer, Outcome, Step};
use peer_tables::{Journal, Sweep};
use policy_book::EntryFault;

impl Peer {
    pub(super) fn settle<W: Sweep>(&mut self, sweep: &W) -> Result<Answer, NoMemory>
        ensures answer { IfOk result (λ answer. answer ≡ answer_settle self.old) }
        ensures after { OnOk result (self.new ≡ changed_by self.old Step.Settle (answer_settle self.old)) }
        ensures unchanged { OnErr result (self.new ≡ self.old) }
        ensures takes_none { IsTrue (takes_none (answer_settle self.old)) → IsOk result }
    {
        let Some(i) = self.first_due() else {
            return Ok(Answer::Quiet);
        };
        match self.fault_at(i) {
            Some(fault) => Ok(self.drop_at(i, fault)),
            None => self.settle_at(i, sweep),
        }
    }

    // The place of the earliest held message that is due.
    pub(super) fn first_due(&self) -> Option<u32>
        ensures { result ≡ position (is_due self.now.journal) self.now.held }
    {
        self.hold.first_due(&DueIn(&self.journal))
    }

    // The fault of the held entry at a place.
    fn fault_at(&self, i: u32) -> Option<EntryFault>
        ensures { result ≡ option_and_then (fault_in self.now) (slice_get self.now.held i) }
    {
        match self.held(i)? {
            Message::Coop(_) => None,
            Message::Admin(entry) => self.journal.legal(entry.op()),
        }
    }

    // A copy of the earliest due message.
    fn copy_at(&self, i: u32) -> Result<Message, NoMemory>
        requires { position (is_due self.now.journal) self.now.held ≡ Some i }
        ensures { IfOk result (λ message. slice_get self.now.held i ≡ Some message) }
    {
        match self.held(i) {
            Some(message) => message.copied(),
            None => unreachable!(),
        }
    }

    // The earliest due message, an entry with this fault, is held no more.
    fn drop_at(&mut self, i: u32, fault: EntryFault) -> Answer
        requires due { position (is_due self.old.journal) self.old.held ≡ Some i }
        requires faulty { option_and_then (fault_in self.old) (slice_get self.old.held i) ≡ Some fault }
        ensures answer { result ≡ answer_settle self.old }
        ensures after { self.new ≡ changed_by self.old Step.Settle (answer_settle self.old) }
    {
        match self.hold.take(i) {
            Message::Admin(entry) => Answer::Dropped(entry, fault),
            Message::Coop(_) => unreachable!(),
        }
    }

    // The earliest due message, which is legal, is integrated.
    fn settle_at<W: Sweep>(&mut self, i: u32, sweep: &W) -> Result<Answer, NoMemory>
        requires due { position (is_due self.old.journal) self.old.held ≡ Some i }
        requires legal { option_and_then (fault_in self.old) (slice_get self.old.held i) ≡ None }
        ensures answer { IfOk result (λ answer. answer ≡ answer_settle self.old) }
        ensures after { OnOk result (self.new ≡ changed_by self.old Step.Settle (answer_settle self.old)) }
        ensures unchanged { OnErr result (self.new ≡ self.old) }
    {
        let copy = self.copy_at(i)?;
        let outcome = integrate(&mut self.journal, copy, sweep)?;
        let message = self.hold.take(i);
        wake_by(&mut self.hold, &self.journal, met_by(&message));
        Ok(Answer::Settled(message, outcome))
    }
}

// A message that is due joins the journal.
fn integrate<W: Sweep>(
    journal: &mut Journal,
    message: Message,
    sweep: &W,
) -> Result<Outcome, NoMemory>
    requires follows { FollowsJournal journal.old message }
    requires room { finds_no_room journal.old message ≡ false }
    ensures ok { OnOk result (journal.new ≡ journal.old ++ message ∷ []) }
    ensures outcome { IfOk result (λ outcome. (site : ℕ) (held : List Message) → outcome ≡ outcome_of (record { site = site; journal = journal.old; held = held }) message) }
    ensures unchanged { OnErr result (journal.new ≡ journal.old) }
{
    match message {
        Message::Coop(request) => Ok(Outcome::Taken(journal.push_request(&request.lent(), None)?)),
        Message::Admin(entry) => Ok(Outcome::Advanced(journal.push_entry(entry, sweep)?)),
    }
}
