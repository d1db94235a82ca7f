//! Edits with a lent piece.
ghost use Rattle.std.specs.Prelude.{◌≡◌};
ghost use Rattle.coop_request.specs.Edit.{anchor_or_target, targets_start, right_of, element_by, new_element_by};
ghost use Rattle.coop_request.specs.LentEdit.{edit_lent};

use crate::edit::{Edit, Right};
use crate::lent_piece::LentPiece;
use element_name::Name;

/// An edit whose piece is lent. `edit_lent` says which edit it is.
#[derive(Drop)]
pub enum LentEdit<'a> {
    /// A new element behind its anchor, which is the start or an element.
    Insert { after: Name, letter: LentPiece<'a> },
    /// The element is hidden.
    Delete { target: Name },
    /// The element shows another piece.
    Update { target: Name, letter: LentPiece<'a> },
}

impl<'a> LentEdit<'a> {
    /// The anchor of an insert, the target of another edit.
    pub fn anchor_or_target(&self) -> Name
        ensures { result ≡ anchor_or_target (edit_lent self.now) }
    {
        match self {
            LentEdit::Insert { after, .. } => *after,
            LentEdit::Delete { target } | LentEdit::Update { target, .. } => *target,
        }
    }

    // Whether it is a delete or an update of the start, which is no element.
    pub(crate) fn targets_start(&self) -> bool
        ensures { result ≡ targets_start (edit_lent self.now) }
    {
        match self {
            LentEdit::Insert { .. } => false,
            LentEdit::Delete { target } | LentEdit::Update { target, .. } => {
                *target == Name::start()
            }
        }
    }

    /// The right that it needs.
    pub fn right(&self) -> Right
        ensures { result ≡ right_of (edit_lent self.now) }
    {
        match self {
            LentEdit::Insert { .. } => Right::Insert,
            LentEdit::Delete { .. } => Right::Delete,
            LentEdit::Update { .. } => Right::Update,
        }
    }

    /// The name of the element on which it is judged, as the edit of the request `id`: the new one, or the target.
    pub fn element(&self, id: Name) -> Name
        ensures { result ≡ element_by id (edit_lent self.now) }
    {
        match self {
            LentEdit::Insert { .. } => id,
            LentEdit::Delete { target } | LentEdit::Update { target, .. } => *target,
        }
    }

    /// The name of the element that it makes as the edit of the request `id`, if it is an insert.
    pub fn new_element(&self, id: Name) -> Option<Name>
        ensures { result ≡ new_element_by id (edit_lent self.now) }
    {
        match self {
            LentEdit::Insert { .. } => Some(id),
            LentEdit::Delete { .. } | LentEdit::Update { .. } => None,
        }
    }

    /// The same edit with its piece in place.
    pub fn edit(&self) -> Edit
        ensures { result ≡ edit_lent self.now }
    {
        match self {
            LentEdit::Insert { after, letter } => Edit::Insert {
                after: *after,
                letter: letter.piece(),
            },
            LentEdit::Delete { target } => Edit::Delete { target: *target },
            LentEdit::Update { target, letter } => Edit::Update {
                target: *target,
                letter: letter.piece(),
            },
        }
    }
}
