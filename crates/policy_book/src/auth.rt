//! Authorizations.
ghost use Rattle.std.specs.Prelude.{◌≡◌, ◌↔◌, IfOk, IsTrue, ◌||◌};
ghost use Rattle.element_name.specs.Cases.{when};
ghost use Rattle.policy_book.specs.Rights.{has_any};

use crate::lists::{NameList, NumList};
use element_name::{Name, NoMemory};
use std::marker::Model;

/// Which elements an object covers.
#[derive(Drop)]
pub enum Extent {
    /// Every element.
    All,
    /// The elements from the first to the last in text order, both included.
    Span(Name, Name),
    /// The elements of these names.
    Elems(NameList),
    /// The elements that the user's inserts made.
    By(u16),
}

/// Whom an authorization speaks of.
#[derive(Drop)]
pub enum UserSet {
    /// Every user.
    All,
    /// The users of these numbers.
    Listed(NumList),
    /// The members of the groups of these numbers.
    Groups(NumList),
}

/// At least one of the three rights.
#[derive(Clone, Copy, Debug, PartialEq, Eq)]
pub struct Rights {
    insert: bool,
    delete: bool,
    update: bool,
}

impl Model for Rights {
    ghost use Rattle.std.specs.Prelude.{◌≡◌, true};
    ghost use Rattle.policy_book.specs.Rights as spec;

    ghost Value = { spec.Rights };

    ghost view = { λ r. record { insert = r.insert; delete = r.delete; update = r.update } };

    ghost invariant = { λ r. spec.has_any (record { insert = r.insert; delete = r.delete; update = r.update }) ≡ true };

    ghost inverse = { λ r. record { insert = r.insert; delete = r.delete; update = r.update } };
}

/// A positive or negative authorization: of users, for rights, on objects.
#[derive(Drop)]
pub struct Auth {
    pub users: UserSet,
    pub rights: Rights,
    /// The numbers of objects. Those that the policy doesn't have cover nothing.
    pub objects: NumList,
    /// Whether it allows, or forbids.
    pub grant: bool,
}

impl Extent {
    /// Whether the other equals this one.
    pub fn same(&self, other: &Extent) -> bool
        ensures { IsTrue result ↔ (self.now ≡ other.now) }
    {
        match (self, other) {
            (Extent::All, Extent::All) => true,
            (Extent::Span(a, b), Extent::Span(c, d)) => *a == *c && *b == *d,
            (Extent::Elems(names), Extent::Elems(others)) => names.same(others),
            (Extent::By(user), Extent::By(other)) => *user == *other,
            (_, _) => false,
        }
    }

    /// An extent that equals this one. Its list has the same allocator.
    pub fn copied(&self) -> Result<Extent, NoMemory>
        ensures { IfOk result (λ c. c ≡ self.now) }
    {
        let copy = match self {
            Extent::All => Extent::All,
            Extent::Span(first, last) => Extent::Span(*first, *last),
            Extent::Elems(names) => Extent::Elems(names.copied()?),
            Extent::By(user) => Extent::By(*user),
        };
        Ok(copy)
    }
}

impl UserSet {
    /// Whether the other equals this one.
    pub fn same(&self, other: &UserSet) -> bool
        ensures { IsTrue result ↔ (self.now ≡ other.now) }
    {
        match (self, other) {
            (UserSet::All, UserSet::All) => true,
            (UserSet::Listed(numbers), UserSet::Listed(others)) => numbers.same(others),
            (UserSet::Groups(numbers), UserSet::Groups(others)) => numbers.same(others),
            (_, _) => false,
        }
    }

    /// A set that equals this one. Its list has the same allocator.
    pub fn copied(&self) -> Result<UserSet, NoMemory>
        ensures { IfOk result (λ c. c ≡ self.now) }
    {
        let copy = match self {
            UserSet::All => UserSet::All,
            UserSet::Listed(numbers) => UserSet::Listed(numbers.copied()?),
            UserSet::Groups(numbers) => UserSet::Groups(numbers.copied()?),
        };
        Ok(copy)
    }
}

impl Auth {
    /// Whether the other equals this one.
    pub fn same(&self, other: &Auth) -> bool
        ensures { IsTrue result ↔ (self.now ≡ other.now) }
    {
        self.users.same(&other.users)
            && self.rights == other.rights
            && self.objects.same(&other.objects)
            && self.grant == other.grant
    }

    /// An authorization that equals this one. Its lists have the same allocators.
    pub fn copied(&self) -> Result<Auth, NoMemory>
        ensures { IfOk result (λ c. c ≡ self.now) }
    {
        Ok(Auth {
            users: self.users.copied()?,
            rights: self.rights,
            objects: self.objects.copied()?,
            grant: self.grant,
        })
    }
}

impl Rights {
    /// These rights; none where it would be no right at all.
    pub fn checked(insert: bool, delete: bool, update: bool) -> Option<Rights>
        ensures { result ≡ when (insert || (delete || update)) (record { insert = insert; delete = delete; update = update }) }
    {
        if !(insert || delete || update) {
            return None;
        }
        Some(Rights {
            insert,
            delete,
            update,
        })
    }

    /// The right to insert elements.
    pub fn insert(self) -> bool
        ensures value { result ≡ self.insert }
        ensures some { IsTrue (has_any self) }
    {
        self.insert
    }

    /// The right to delete elements.
    pub fn delete(self) -> bool
        ensures value { result ≡ self.delete }
        ensures some { IsTrue (has_any self) }
    {
        self.delete
    }

    /// The right to change what elements show.
    pub fn update(self) -> bool
        ensures value { result ≡ self.update }
        ensures some { IsTrue (has_any self) }
    {
        self.update
    }
}
