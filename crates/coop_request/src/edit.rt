//! What a request asks for.
ghost use Rattle.std.specs.Prelude.{◌≡◌};
ghost use Rattle.coop_request.specs.Edit.{anchor_or_target, right_of, element_by, new_element_by};
ghost use Rattle.coop_request.specs.LentEdit.{edit_lent};

use crate::lent_edit::LentEdit;
use crate::piece::Piece;
use element_name::Name;

/// A change of the text.
#[derive(Clone, Copy, Debug, PartialEq, Eq)]
pub enum Edit {
    /// A new element behind its anchor, which is the start or an element.
    Insert { after: Name, letter: Piece },
    /// The element is hidden.
    Delete { target: Name },
    /// The element shows another piece.
    Update { target: Name, letter: Piece },
}

/// What an authorization may allow: one right for each kind of edit.
#[derive(Clone, Copy, Debug, PartialEq, Eq)]
pub enum Right {
    Insert,
    Delete,
    Update,
}

impl Edit {
    /// The same edit, its piece lent.
    pub fn lent(&self) -> LentEdit<'_>
        ensures { edit_lent result ≡ self.now }
    {
        match self {
            Edit::Insert { after, letter } => LentEdit::Insert {
                after: *after,
                letter: letter.lent(),
            },
            Edit::Delete { target } => LentEdit::Delete { target: *target },
            Edit::Update { target, letter } => LentEdit::Update {
                target: *target,
                letter: letter.lent(),
            },
        }
    }

    /// The anchor of an insert, the target of another edit.
    pub fn anchor_or_target(&self) -> Name
        ensures { result ≡ anchor_or_target self.now }
    {
        self.lent().anchor_or_target()
    }

    /// The right that it needs.
    pub fn right(self) -> Right
        ensures { result ≡ right_of self }
    {
        self.lent().right()
    }

    /// The name of the element on which it is judged, as the edit of the request `id`: the new one, or the target.
    pub fn element(self, id: Name) -> Name
        ensures { result ≡ element_by id self }
    {
        self.lent().element(id)
    }

    /// The name of the element that it makes as the edit of the request `id`, if it is an insert.
    pub fn new_element(&self, id: Name) -> Option<Name>
        ensures { result ≡ new_element_by id self.now }
    {
        self.lent().new_element(id)
    }
}
