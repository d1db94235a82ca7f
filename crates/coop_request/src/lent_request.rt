//! Requests with a lent piece.
ghost use Rattle.std.specs.Prelude.{◌≡◌, MatchResult, Some};
ghost use Rattle.coop_request.specs.Edit.{right_of};
ghost use Rattle.coop_request.specs.LentEdit.{edit_lent};
ghost use Rattle.coop_request.specs.Request.{request_fault, element_of, new_element_of, user_of, IsAccepted};

use crate::edit::Right;
use crate::lent_edit::LentEdit;
use crate::request::{Request, RequestFault};
use element_name::{MAX_VERSION, Name};
use std::marker::Model;

/// A request whose piece lies elsewhere, seen as the request. So it is passed on without a piece's 255 bytes.
#[derive(Drop)]
pub struct LentRequest<'a> {
    id: Name,
    version: u32,
    edit: LentEdit<'a>,
}

impl<'a> Model for LentRequest<'a> {
    ghost use Rattle.coop_request.specs.Request as spec;

    ghost Value = { spec.Request };

    ghost use Rattle.coop_request.specs.LentEdit.{edit_lent};

    ghost view = { λ q. record { id = q.id; version = q.version; edit = edit_lent q.edit } };

    ghost invariant = { λ q. spec.IsAccepted (record { id = q.id; version = q.version; edit = edit_lent q.edit }) };
}

impl<'a> LentRequest<'a> {
    /// The request of these parts, or the first fault that it has.
    pub fn checked(
        id: Name,
        version: u32,
        edit: LentEdit<'a>,
    ) -> Result<LentRequest<'a>, RequestFault>
        ensures { MatchResult result
            (λ q. (q ≡ record { id = id; version = version; edit = edit_lent edit.entry }) × IsAccepted q)
            (λ fault. request_fault (record { id = id; version = version; edit = edit_lent edit.entry }) ≡ Some fault) }
    {
        if version > MAX_VERSION {
            return Err(RequestFault::BadVersion);
        }
        if edit.targets_start() {
            return Err(RequestFault::StartTarget);
        }
        if id.stamp() <= edit.anchor_or_target().stamp() {
            return Err(RequestFault::StampOrder);
        }
        Ok(LentRequest { id, version, edit })
    }

    /// The request of parts that are known to be one's.
    pub(crate) fn from_known(id: Name, version: u32, edit: LentEdit<'a>) -> LentRequest<'a>
        requires { IsAccepted (record { id = id; version = version; edit = edit_lent edit }) }
        ensures { result ≡ record { id = id; version = version; edit = edit_lent edit.entry } }
    {
        LentRequest { id, version, edit }
    }

    /// Its name. The element that an insert makes has the same.
    pub fn id(&self) -> Name
        ensures value { result ≡ self.now.id }
        ensures accepted { IsAccepted self.now }
    {
        self.id
    }

    /// The policy version that its sender had.
    pub fn version(&self) -> u32
        ensures value { result ≡ self.now.version }
        ensures accepted { IsAccepted self.now }
    {
        self.version
    }

    /// What it asks for.
    pub fn edit(&self) -> &LentEdit<'a>
        ensures value { edit_lent result.now ≡ self.now.edit }
        ensures accepted { IsAccepted self.now }
    {
        &self.edit
    }

    /// The right that it needs.
    pub fn right(&self) -> Right
        ensures { result ≡ right_of self.now.edit }
    {
        self.edit.right()
    }

    /// The name of the element on which it is judged: the new one, or the target.
    pub fn element(&self) -> Name
        ensures { result ≡ element_of self.now }
    {
        self.edit.element(self.id)
    }

    /// The name of the element that it makes, if it is an insert.
    pub fn new_element(&self) -> Option<Name>
        ensures { result ≡ new_element_of self.now }
    {
        self.edit.new_element(self.id)
    }

    /// The number of its user, who is at the site of that number.
    pub fn user(&self) -> u16
        ensures { result ≡ user_of self.now }
    {
        self.id.site()
    }

    /// The same request with its piece in place.
    pub fn request(&self) -> Request
        ensures { result ≡ self.now }
    {
        Request::from_known(self.id, self.version, self.edit.edit())
    }
}
