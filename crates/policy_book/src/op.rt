//! Administrative operations.
ghost use Rattle.std.specs.Prelude.{◌≡◌, ◌↔◌, IfOk, IsTrue};
ghost use Rattle.element_name.specs.Cases.{when};
ghost use Rattle.policy_book.specs.Entry.{is_entry_version, is_entry};

use crate::auth::Extent;
use crate::ranges::operation_in_range;
use crate::shared::SharedAuth;
use element_name::{MAX_VERSION, Name, NoMemory};
use std::marker::Model;

/// A change of the policy. Users, objects and groups go by numbers of their own.
#[derive(Drop)]
pub enum AdminOp {
    AddUser(u16),
    DelUser(u16),
    AddObj(u16, Extent),
    DelObj(u16),
    AddGroup(u16),
    DelGroup(u16),
    AddMember { group: u16, user: u16 },
    DelMember { group: u16, user: u16 },
    /// The authorization is put at this place, from 0, and later ones move up.
    AddAuth(u16, SharedAuth),
    /// The authorization at this place, from 0, is removed.
    DelAuth(u16),
    /// The request of this name is confirmed. It changes no policy.
    Validate(Name),
}

/// An operation with the policy version that it makes, from 1.
#[derive(Drop)]
pub struct Entry {
    version: u32,
    op: AdminOp,
}

impl Model for Entry {
    ghost use Rattle.std.specs.Prelude.{◌≡◌, true};
    ghost use Rattle.policy_book.specs.Entry as spec;

    ghost Value = { spec.Entry };

    ghost view = { λ e. record { version = e.version; op = e.op } };

    ghost invariant = { λ e. spec.is_entry (record { version = e.version; op = e.op }) ≡ true };
}

impl AdminOp {
    /// Whether the other equals this one.
    pub fn same(&self, other: &AdminOp) -> bool
        ensures { IsTrue result ↔ (self.now ≡ other.now) }
    {
        match (self, other) {
            (AdminOp::AddUser(a), AdminOp::AddUser(b)) => *a == *b,
            (AdminOp::DelUser(a), AdminOp::DelUser(b)) => *a == *b,
            (AdminOp::AddObj(a, x), AdminOp::AddObj(b, y)) => *a == *b && x.same(y),
            (AdminOp::DelObj(a), AdminOp::DelObj(b)) => *a == *b,
            (AdminOp::AddGroup(a), AdminOp::AddGroup(b)) => *a == *b,
            (AdminOp::DelGroup(a), AdminOp::DelGroup(b)) => *a == *b,
            (AdminOp::AddMember { group, user }, AdminOp::AddMember { group: g, user: u }) => *group
                == *g
                && *user == *u,
            (AdminOp::DelMember { group, user }, AdminOp::DelMember { group: g, user: u }) => *group
                == *g
                && *user == *u,
            (AdminOp::AddAuth(a, x), AdminOp::AddAuth(b, y)) => *a == *b && x.get().same(y.get()),
            (AdminOp::DelAuth(a), AdminOp::DelAuth(b)) => *a == *b,
            (AdminOp::Validate(a), AdminOp::Validate(b)) => *a == *b,
            (_, _) => false,
        }
    }

    /// An operation that equals this one. Its lists have the same allocators, and an authorization is shared.
    pub fn copied(&self) -> Result<AdminOp, NoMemory>
        ensures { IfOk result (λ c. c ≡ self.now) }
    {
        let copy = match self {
            AdminOp::AddUser(u) => AdminOp::AddUser(*u),
            AdminOp::DelUser(u) => AdminOp::DelUser(*u),
            AdminOp::AddObj(n, extent) => AdminOp::AddObj(*n, extent.copied()?),
            AdminOp::DelObj(n) => AdminOp::DelObj(*n),
            AdminOp::AddGroup(g) => AdminOp::AddGroup(*g),
            AdminOp::DelGroup(g) => AdminOp::DelGroup(*g),
            AdminOp::AddMember { group, user } => AdminOp::AddMember {
                group: *group,
                user: *user,
            },
            AdminOp::DelMember { group, user } => AdminOp::DelMember {
                group: *group,
                user: *user,
            },
            AdminOp::AddAuth(place, auth) => AdminOp::AddAuth(*place, auth.shared()?),
            AdminOp::DelAuth(place) => AdminOp::DelAuth(*place),
            AdminOp::Validate(name) => AdminOp::Validate(*name),
        };
        Ok(copy)
    }
}

impl Entry {
    /// The entry of this version; none where the version is 0 or above [`MAX_VERSION`].
    pub fn checked(version: u32, op: AdminOp) -> Option<Entry>
        ensures { result ≡ when (is_entry_version version) (record { version = version; op = op }) }
    {
        if version == 0 || version > MAX_VERSION {
            return None;
        }
        operation_in_range(&op);
        Some(Entry { version, op })
    }

    /// Whether the other equals this one.
    pub fn same(&self, other: &Entry) -> bool
        ensures { IsTrue result ↔ (self.now ≡ other.now) }
    {
        self.version == other.version && self.op.same(&other.op)
    }

    /// An entry that equals this one, copied as its operation is.
    pub fn copied(&self) -> Result<Entry, NoMemory>
        ensures { IfOk result (λ c. c ≡ self.now) }
    {
        Ok(Entry {
            version: self.version,
            op: self.op.copied()?,
        })
    }

    /// The policy version that it makes.
    pub fn version(&self) -> u32
        ensures value { result ≡ self.now.version }
        ensures entry { IsTrue (is_entry self.now) }
    {
        self.version
    }

    /// The change.
    pub fn op(&self) -> &AdminOp
        ensures value { result.now ≡ self.now.op }
        ensures entry { IsTrue (is_entry self.now) }
    {
        &self.op
    }
}
