//! Steps.
ghost use Rattle.std.specs.Prelude.{◌≡◌, IfOk};

use coop_request::Piece;
use edit_message::Message;
use element_name::NoMemory;
use policy_book::AdminOp;

/// An edit at a place of the shown text, from 0.
#[derive(Clone, Copy, Debug, PartialEq, Eq)]
pub enum LocalEdit {
    /// The piece is put in front of the one at this place, or last where the text ends there.
    Insert { at: u32, letter: Piece },
    /// The piece at this place is taken out.
    Delete { at: u32 },
    /// The piece at this place becomes this one.
    Update { at: u32, letter: Piece },
}

/// What a peer may be asked to do.
#[derive(Drop)]
pub enum Step {
    /// An edit of its own.
    Edit(LocalEdit),
    /// A change of the policy.
    Administer(AdminOp),
    /// A message of another peer.
    Receive(Message),
    /// The earliest held message that is due.
    Settle,
    /// The validation of the least Tentative request.
    ValidateNext,
    /// A look at the journal's item at this place.
    Look { from: u32 },
    /// A look at the text.
    Show,
}

impl Step {
    /// A step that equals this one.
    pub fn copied(&self) -> Result<Step, NoMemory>
        ensures { IfOk result (λ c. c ≡ self.now) }
    {
        let copy = match self {
            Step::Edit(edit) => Step::Edit(*edit),
            Step::Administer(op) => Step::Administer(op.copied()?),
            Step::Receive(message) => Step::Receive(message.copied()?),
            Step::Settle => Step::Settle,
            Step::ValidateNext => Step::ValidateNext,
            Step::Look { from } => Step::Look { from: *from },
            Step::Show => Step::Show,
        };
        Ok(copy)
    }
}
