//! Own edits whose pieces lie elsewhere, and answers without the requests that they would have.
ghost use Rattle.std.specs.Prelude.{◌≡◌};
ghost use Rattle.peer_step.specs.Lent.{local_edit_lent, answer_told};

use crate::answer::Answer;
use crate::step::LocalEdit;
use coop_request::LentPiece;
use edit_message::Missing;
use element_name::Name;
use request_state::State;

/// An edit at a place of the shown text, from 0, whose piece lies elsewhere.
#[derive(Drop)]
pub enum LentLocalEdit<'a> {
    /// The piece is put in front of the one at this place, or last where the text ends there.
    Insert { at: u32, letter: LentPiece<'a> },
    /// The piece at this place is taken out.
    Delete { at: u32 },
    /// The piece at this place becomes this one.
    Update { at: u32, letter: LentPiece<'a> },
}

/// The answer to an own edit, where a made request is told by its name and its version alone.
#[derive(Clone, Copy)]
pub enum EditAnswer {
    /// The text is only as long as this.
    BadPlace(u32),
    /// The history has the greatest stamp.
    ClockEnd,
    /// The history has as many requests as it may.
    HistoryFull,
    /// The policy of this version denies the edit, by the authorization of that number or since none matches.
    Denied { version: u32, by: Option<u32> },
    /// The edit was made by the request of this name and version.
    Done { id: Name, version: u32 },
}

/// The answer to a request that comes, but that another one of its name is here, which is given back whole.
#[derive(Clone, Copy)]
pub enum RequestAnswer {
    /// The request is here already.
    Repeat,
    /// The request is of this very site.
    OwnSite,
    /// The history has as many requests as it may.
    HistoryFull,
    /// The request misses something, and as many messages are held as may be.
    HoldFull,
    /// The request is held, since it misses this.
    Held(Missing),
    /// The request joined the history, with this state.
    Taken(State),
}

impl LocalEdit {
    /// The edit, whose piece stays here. Takes constant time.
    pub fn lent(&self) -> LentLocalEdit<'_>
        ensures { local_edit_lent result ≡ self.now }
    {
        match self {
            LocalEdit::Insert { at, letter } => LentLocalEdit::Insert {
                at: *at,
                letter: letter.lent(),
            },
            LocalEdit::Delete { at } => LentLocalEdit::Delete { at: *at },
            LocalEdit::Update { at, letter } => LentLocalEdit::Update {
                at: *at,
                letter: letter.lent(),
            },
        }
    }
}

impl RequestAnswer {
    /// The answer that it tells.
    pub fn answer(self) -> Answer
        ensures { result ≡ answer_told self }
    {
        match self {
            RequestAnswer::Repeat => Answer::Repeat,
            RequestAnswer::OwnSite => Answer::OwnSite,
            RequestAnswer::HistoryFull => Answer::HistoryFull,
            RequestAnswer::HoldFull => Answer::HoldFull,
            RequestAnswer::Held(missing) => Answer::Held(missing),
            RequestAnswer::Taken(state) => Answer::Taken(state),
        }
    }
}
