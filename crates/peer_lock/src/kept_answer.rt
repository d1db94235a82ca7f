//! Answers as a run keeps them.
ghost use Rattle.std.specs.Prelude.{◌≡◌, true, IfOk, OnErr};
ghost use Rattle.peer_step.specs.declared.answer.Answer.{Answer};
ghost use Rattle.peer_lock.specs.KeptAnswers.{kept_answer_of, gives_message};

use crate::boxed_message::BoxedMessage;
use coop_request::Request;
use edit_message::{Message, Missing};
use element_name::{Name, NoMemory};
use peer_step::{Answer, EditAnswer, Outcome};
use policy_book::EntryFault;
use request_state::{State, Undone};
use std::alloc::Global;

/// What a run keeps of an answer: all that is told of it but a text. Of an entry that is its version, of a message that was
/// settled its key, and of a request that was made its name and its version.
#[derive(Drop)]
pub enum KeptAnswer {
    /// An answer to an own edit. `HistoryFull` is given to messages too.
    Edit(EditAnswer),
    /// The site isn't the administrator's.
    NotAdministrator,
    /// The log has as many entries as it may.
    LogFull,
    /// The operation isn't legal.
    Refused(EntryFault),
    /// The operation speaks of what isn't here.
    NotHere(Missing),
    /// A request of the administrator needs no validation.
    NeedsNone,
    /// The request is Invalid, and stays so.
    AlreadyInvalid(State),
    /// No request of another site is Tentative.
    NothingTentative,
    /// The entry of this version joined the log, and this many requests were undone.
    Issued(u32, Undone),
    /// The message is here already.
    Repeat,
    /// Another message of its key is here, which is given.
    Conflict(BoxedMessage),
    /// The request is of this very site.
    OwnSite,
    /// The administrator takes no entries.
    OwnLog,
    /// The entry is the next one, and isn't legal.
    Illegal(EntryFault),
    /// The message misses something, and as many are held as may be.
    HoldFull,
    /// The message is held, since it misses this.
    Held(Missing),
    /// The request joined the history, with this state.
    Taken(State),
    /// The entry of this version joined the log, and this many requests were undone.
    Advanced(u32, Undone),
    /// No held message is due.
    Quiet,
    /// The earliest due message was an entry of this version that isn't legal.
    Dropped(u32, EntryFault),
    /// The earliest due message, the request of this name, was integrated.
    SettledRequest(Name, Outcome),
    /// The earliest due message, the entry of this version, was integrated.
    SettledEntry(u32, Outcome),
    /// The journal's item.
    Item(BoxedMessage),
    /// The journal has no such item.
    NoItem,
    /// The text, which isn't kept: the texts of a run may be far longer than the run.
    Shown,
}

// What is told of a denied edit.
fn denied(version: u32, by: Option<u32>) -> KeptAnswer
    ensures { result ≡ KeptAnswer.Edit (EditAnswer.Denied version by) }
{
    KeptAnswer::Edit(EditAnswer::Denied { version, by })
}

// What is told of a request that was made.
fn done(request: &Request) -> KeptAnswer
    ensures { result ≡ kept_answer_of (Answer.Done request.now) }
{
    KeptAnswer::Edit(EditAnswer::Done {
        id: request.id(),
        version: request.version(),
    })
}

// What is told of a message that was settled.
fn settled(message: &Message, outcome: Outcome) -> KeptAnswer
    ensures { result ≡ kept_answer_of (Answer.Settled message.now outcome) }
{
    match message {
        Message::Coop(request) => KeptAnswer::SettledRequest(request.id(), outcome),
        Message::Admin(entry) => KeptAnswer::SettledEntry(entry.version(), outcome),
    }
}

impl KeptAnswer {
    /// What is kept of an answer, in constant time, but for the lists of an entry that the answer gives. It takes memory
    /// only where the answer gives a message, of which a copy is kept.
    pub(crate) fn of(alloc: Global, answer: &Answer) -> Result<KeptAnswer, NoMemory>
        ensures kept { IfOk result (λ kept. kept ≡ kept_answer_of answer.now) }
        ensures takes_none { OnErr result (gives_message answer.now ≡ true) }
    {
        let kept = match answer {
            Answer::BadPlace(len) => KeptAnswer::Edit(EditAnswer::BadPlace(*len)),
            Answer::ClockEnd => KeptAnswer::Edit(EditAnswer::ClockEnd),
            Answer::HistoryFull => KeptAnswer::Edit(EditAnswer::HistoryFull),
            Answer::Denied { version, by } => denied(*version, *by),
            Answer::Done(request) => done(request),
            Answer::NotAdministrator => KeptAnswer::NotAdministrator,
            Answer::LogFull => KeptAnswer::LogFull,
            Answer::Refused(fault) => KeptAnswer::Refused(*fault),
            Answer::NotHere(missing) => KeptAnswer::NotHere(*missing),
            Answer::NeedsNone => KeptAnswer::NeedsNone,
            Answer::AlreadyInvalid(state) => KeptAnswer::AlreadyInvalid(*state),
            Answer::NothingTentative => KeptAnswer::NothingTentative,
            Answer::Issued(entry, undone) => KeptAnswer::Issued(entry.version(), *undone),
            Answer::Repeat => KeptAnswer::Repeat,
            Answer::Conflict(other) => KeptAnswer::Conflict(BoxedMessage::of(alloc, other)?),
            Answer::OwnSite => KeptAnswer::OwnSite,
            Answer::OwnLog => KeptAnswer::OwnLog,
            Answer::Illegal(fault) => KeptAnswer::Illegal(*fault),
            Answer::HoldFull => KeptAnswer::HoldFull,
            Answer::Held(missing) => KeptAnswer::Held(*missing),
            Answer::Taken(state) => KeptAnswer::Taken(*state),
            Answer::Advanced(entry, undone) => KeptAnswer::Advanced(entry.version(), *undone),
            Answer::Quiet => KeptAnswer::Quiet,
            Answer::Dropped(entry, fault) => KeptAnswer::Dropped(entry.version(), *fault),
            Answer::Settled(message, outcome) => settled(message, *outcome),
            Answer::Item(Some(message)) => KeptAnswer::Item(BoxedMessage::of(alloc, message)?),
            Answer::Item(None) => KeptAnswer::NoItem,
            Answer::Shown(_) => KeptAnswer::Shown,
        };
        Ok(kept)
    }
}
