//! Requests.
ghost use Rattle.std.specs.Prelude.{◌≡◌, MatchResult, Some};
ghost use Rattle.coop_request.specs.Edit.{right_of};
ghost use Rattle.coop_request.specs.Request.{request_fault, element_of, new_element_of, user_of, IsAccepted};

use crate::edit::{Edit, Right};
use crate::lent_request::LentRequest;
use element_name::Name;
use std::marker::Model;

/// The greatest number of requests in a history.
pub const MAX_REQUESTS: usize = 131_072;

/// A request of an editor: its name, the policy version that its sender had, and its edit.
///
/// Its stamp is greater than that of the element that it speaks of, since its sender knew that element.
#[derive(Clone, Copy, Debug, PartialEq, Eq)]
pub struct Request {
    id: Name,
    version: u32,
    edit: Edit,
}

/// Why there is no such request.
#[derive(Clone, Copy, Debug, PartialEq, Eq)]
pub enum RequestFault {
    /// The version is above the greatest that a policy may have.
    BadVersion,
    /// A delete or an update is of the start, which is no element.
    StartTarget,
    /// The stamp isn't greater than that of the anchor or target.
    StampOrder,
}

impl Model for Request {
    ghost use Rattle.coop_request.specs.Request as spec;

    ghost Value = { spec.Request };

    ghost view = { λ q. record { id = q.id; version = q.version; edit = q.edit } };

    ghost invariant = { λ q. spec.IsAccepted (record { id = q.id; version = q.version; edit = q.edit }) };

    ghost inverse = { λ q. record { id = q.id; version = q.version; edit = q.edit } };
}

impl Request {
    /// The request of these parts, or the first fault that it has.
    pub fn checked(id: Name, version: u32, edit: Edit) -> Result<Request, RequestFault>
        ensures { MatchResult result
            (λ q. (q ≡ record { id = id; version = version; edit = edit }) × IsAccepted q)
            (λ fault. request_fault (record { id = id; version = version; edit = edit }) ≡ Some fault) }
    {
        match LentRequest::checked(id, version, edit.lent()) {
            Ok(_) => Ok(Request { id, version, edit }),
            Err(fault) => Err(fault),
        }
    }

    /// The request of parts that are known to be one's.
    pub(crate) fn from_known(id: Name, version: u32, edit: Edit) -> Request
        requires { IsAccepted (record { id = id; version = version; edit = edit }) }
        ensures { result ≡ record { id = id; version = version; edit = edit } }
    {
        Request { id, version, edit }
    }

    /// The same request, its piece lent.
    pub fn lent(&self) -> LentRequest<'_>
        ensures { result ≡ self.now }
    {
        LentRequest::from_known(self.id, self.version, self.edit.lent())
    }

    /// Its name. The element that an insert makes has the same.
    pub fn id(self) -> Name
        ensures value { result ≡ self.id }
        ensures accepted { IsAccepted self }
    {
        self.id
    }

    /// The policy version that its sender had.
    pub fn version(self) -> u32
        ensures value { result ≡ self.version }
        ensures accepted { IsAccepted self }
    {
        self.version
    }

    /// What it asks for.
    pub fn edit(self) -> Edit
        ensures value { result ≡ self.edit }
        ensures accepted { IsAccepted self }
    {
        self.edit
    }

    /// The right that it needs.
    pub fn right(self) -> Right
        ensures { result ≡ right_of self.edit }
    {
        self.edit.right()
    }

    /// The name of the element on which it is judged: the new one, or the target.
    pub fn element(self) -> Name
        ensures { result ≡ element_of self }
    {
        self.edit.element(self.id)
    }

    /// The name of the element that it makes, if it is an insert.
    pub fn new_element(self) -> Option<Name>
        ensures { result ≡ new_element_of self }
    {
        self.edit.new_element(self.id)
    }

    /// The number of its user, who is at the site of that number.
    pub fn user(self) -> u16
        ensures { result ≡ user_of self }
    {
        self.id.site()
    }
}
