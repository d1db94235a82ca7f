//! Packed steps.
ghost use Rattle.std.specs.Prelude.{◌≡◌, IfOk};
ghost use Rattle.peer_step.specs.Packed.{step_in};

use crate::step::{LocalEdit, Step};
use coop_request::PackedPiece;
use edit_message::PackedMessage;
use element_name::NoMemory;
use policy_book::AdminOp;
use std::alloc::Global;
use std::marker::Model;

/// A step as a list keeps it, seen as the step: its piece and its message are packed, and an operation, of which there
/// are few, lies in a box.
#[derive(Drop)]
pub struct PackedStep {
    packed: Packed,
}

#[derive(Drop)]
enum Packed {
    Insert { at: u32, letter: PackedPiece },
    Delete { at: u32 },
    Update { at: u32, letter: PackedPiece },
    Administer(Box<AdminOp>),
    Receive(PackedMessage),
    Settle,
    ValidateNext,
    Look { from: u32 },
    Show,
}

impl Model for PackedStep {
    ghost use Rattle.peer_step.specs.declared.step.Step.{Step};

    ghost Value = { Step };

    ghost use Rattle.peer_step.specs.Packed.{step_in};

    ghost view = { λ s. step_in s.packed };
}

impl PackedStep {
    /// A step, packed, in constant time. Takes memory for an operation, for an entry, and for a piece of more than
    /// [`coop_request::SHORT_PIECE`] bytes.
    pub fn of(alloc: Global, step: Step) -> Result<PackedStep, NoMemory>
        ensures { IfOk result (λ s. s ≡ step) }
    {
        let packed = match step {
            Step::Edit(edit) => Packed::of_edit(alloc, edit)?,
            Step::Administer(op) => Packed::Administer(Box::new(alloc, op)?),
            Step::Receive(message) => Packed::Receive(PackedMessage::of(alloc, message)?),
            Step::Settle => Packed::Settle,
            Step::ValidateNext => Packed::ValidateNext,
            Step::Look { from } => Packed::Look { from },
            Step::Show => Packed::Show,
        };
        Ok(PackedStep { packed })
    }

    /// The step, in time in the lists of an operation or an entry. These alone take memory, and have the same
    /// allocators.
    pub fn copied(&self) -> Result<Step, NoMemory>
        ensures { IfOk result (λ s. s ≡ self.now) }
    {
        let step = match &self.packed {
            Packed::Insert { at, letter } => Step::Edit(LocalEdit::Insert {
                at: *at,
                letter: letter.piece(),
            }),
            Packed::Delete { at } => Step::Edit(LocalEdit::Delete { at: *at }),
            Packed::Update { at, letter } => Step::Edit(LocalEdit::Update {
                at: *at,
                letter: letter.piece(),
            }),
            Packed::Administer(op) => Step::Administer(op.copied()?),
            Packed::Receive(message) => Step::Receive(message.copied()?),
            Packed::Settle => Step::Settle,
            Packed::ValidateNext => Step::ValidateNext,
            Packed::Look { from } => Step::Look { from: *from },
            Packed::Show => Step::Show,
        };
        Ok(step)
    }
}

impl Packed {
    fn of_edit(alloc: Global, edit: LocalEdit) -> Result<Packed, NoMemory>
        ensures { IfOk result (λ p. step_in p ≡ Step.Edit edit) }
    {
        let packed = match edit {
            LocalEdit::Insert { at, letter } => Packed::Insert {
                at,
                letter: PackedPiece::of(alloc, letter)?,
            },
            LocalEdit::Delete { at } => Packed::Delete { at },
            LocalEdit::Update { at, letter } => Packed::Update {
                at,
                letter: PackedPiece::of(alloc, letter)?,
            },
        };
        Ok(packed)
    }
}
