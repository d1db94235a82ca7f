//! Answers.
ghost use Rattle.std.specs.Prelude.{◌≡◌};
ghost use Rattle.peer_step.specs.Answers.{is_quiet};

use crate::text::Text;
use coop_request::Request;
use edit_message::{Message, Missing};
use policy_book::{Entry, EntryFault};
use request_state::{State, Undone};

/// What became of a held message.
#[derive(Clone, Copy, Debug, PartialEq, Eq)]
pub enum Outcome {
    /// The request joined the history, with this state.
    Taken(State),
    /// The entry joined the log, and this many requests were undone.
    Advanced(Undone),
}

/// The answer to a step, in the order in which they are tried for each step; but the `HistoryFull` of a request that
/// comes is tried between `OwnLog` and `Illegal`.
#[derive(Drop)]
pub enum Answer {
    /// The text is only as long as this.
    BadPlace(u32),
    /// The history has the greatest stamp.
    ClockEnd,
    /// The history has as many requests as it may.
    HistoryFull,
    /// The policy of this version denies the edit, by the authorization of that number or since none matches.
    Denied { version: u32, by: Option<u32> },
    /// The edit was made by this request.
    Done(Request),
    /// The site isn't the administrator's.
    NotAdministrator,
    /// The log has as many entries as it may.
    LogFull,
    /// The operation isn't legal.
    Refused(EntryFault),
    /// The operation speaks of what isn't here.
    NotHere(Missing),
    /// A request of the administrator needs no validation.
    NeedsNone,
    /// The request is Invalid, and stays so.
    AlreadyInvalid(State),
    /// No request of another site is Tentative.
    NothingTentative,
    /// The entry joined the log, and this many requests were undone.
    Issued(Entry, Undone),
    /// The message is here already.
    Repeat,
    /// Another message of its key is here, which is given.
    Conflict(Message),
    /// The request is of this very site.
    OwnSite,
    /// The administrator takes no entries.
    OwnLog,
    /// The entry is the next one, and isn't legal.
    Illegal(EntryFault),
    /// The message misses something, and as many are held as may be.
    HoldFull,
    /// The message is held, since it misses this.
    Held(Missing),
    /// The request joined the history, with this state.
    Taken(State),
    /// The entry joined the log, and this many requests were undone.
    Advanced(Entry, Undone),
    /// No held message is due.
    Quiet,
    /// The earliest due message was an entry that isn't legal. It is held no more.
    Dropped(Entry, EntryFault),
    /// The earliest due message was integrated.
    Settled(Message, Outcome),
    /// The journal's item.
    Item(Option<Message>),
    /// The text.
    Shown(Text),
}

impl Answer {
    /// Whether no held message was due.
    pub fn is_quiet(&self) -> bool
        ensures { result ≡ is_quiet self.now }
    {
        matches!(self, Answer::Quiet)
    }
}
