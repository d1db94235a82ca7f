//! What joins the journal, and what it wakes.
ghost use Rattle.std.specs.Prelude.{◌≡◌, ◌++◌, ◌∷◌, [], IfOk, OnOk, OnErr};
ghost use Rattle.coop_request.specs.History.{text_order};
ghost use Rattle.peer_tables.specs.Kept.{IsGivenState};
ghost use Rattle.peer_core.specs.Peer.{history, log, state_at, integrate};
ghost use Rattle.peer_core.specs.Waiting.{met_by, MayWake, HasWoken, MayIntegrate};
ghost use Rattle.peer_core.specs.Answers.{undone_by};

use super::Peer;
use crate::due::wake;
use coop_request::{LentEdit, LentRequest};
use edit_message::Message;
use element_name::NoMemory;
use hold_back::{HoldBack, Need};
use peer_tables::{Journal, Sweep};
use policy_book::Entry;
use request_state::{State, Undone};

impl Peer {
    // A request joins the journal, and what waited for its element is woken.
    pub(super) fn take_request(
        &mut self,
        request: &LentRequest<'_>,
        given: Option<State>,
    ) -> Result<State, NoMemory>
        requires may { MayIntegrate self.old (Message.Coop request.now) }
        requires given { IsGivenState given (text_order (history self.old ++ request.now ∷ [])) (log self.old) request.now }
        ensures after { OnOk result (self.new ≡ integrate self.old (Message.Coop request.now)) }
        ensures state { IfOk result (λ state. state ≡ state_at (integrate self.old (Message.Coop request.now)) request.now) }
        ensures unchanged { OnErr result (self.new ≡ self.old) }
    {
        let state = self.journal.push_request(request, given)?;
        wake_by(&mut self.hold, &self.journal, met_by_request(request));
        Ok(state)
    }

    // An entry joins the journal, and what waited for the new front is woken.
    pub(super) fn take_entry<W: Sweep>(
        &mut self,
        entry: Entry,
        sweep: &W,
    ) -> Result<Undone, NoMemory>
        requires { MayIntegrate self.old (Message.Admin entry) }
        ensures after { OnOk result (self.new ≡ integrate self.old (Message.Admin entry)) }
        ensures undone { IfOk result (λ undone. undone ≡ record { count = undone_by self.old entry }) }
        ensures unchanged { OnErr result (self.new ≡ self.old) }
    {
        let version = entry.version();
        let undone = self.journal.push_entry(entry, sweep)?;
        wake_by(&mut self.hold, &self.journal, Some(Need::Front(version)));
        Ok(undone)
    }
}

// The need that a request meets where it joins a journal.
fn met_by_request(request: &LentRequest<'_>) -> Option<Need>
    ensures { result ≡ met_by (Message.Coop request.now) }
{
    match request.edit() {
        LentEdit::Insert { .. } => Some(Need::Element(request.id())),
        LentEdit::Delete { .. } => None,
        LentEdit::Update { .. } => None,
    }
}

// The need that a message meets.
pub(super) fn met_by(message: &Message) -> Option<Need>
    ensures { result ≡ met_by message.now }
{
    match message {
        Message::Coop(request) => met_by_request(&request.lent()),
        Message::Admin(entry) => Some(Need::Front(entry.version())),
    }
}

// What waited for what has come is woken, now that the journal has it.
pub(super) fn wake_by(hold: &mut HoldBack, journal: &Journal, come: Option<Need>)
    requires { MayWake journal.now come hold.old }
    ensures { HasWoken journal.now hold.old hold.new }
{
    let _ = journal.len();
    if let Some(need) = come {
        wake(hold, journal, &need);
    }
}
