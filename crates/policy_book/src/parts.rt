//! What a policy is made of.
ghost use Rattle.std.specs.Prelude.{◌≡◌, [], length, OnOk, OnErr};
ghost use Rattle.element_name.specs.Numbered.{put_by, without};
ghost use Rattle.policy_book.specs.Lists.{has_number};

use crate::auth::Extent;
use crate::copied::Copied;
use crate::numbered::{Numbered, put, take_out};
use crate::shared::SharedAuth;
use element_name::NoMemory;
use std::alloc::Global;
use std::marker::Model;

/// The members of a group, strictly ascending, seen as the list of their numbers. A group may have none.
#[derive(Drop)]
pub struct Members {
    numbers: Vec<u16>,
}

impl Model for Members {
    ghost use Rattle.std.specs.Prelude.{ℕ, List};

    ghost Value = { List ℕ };

    ghost view = { λ m. m.numbers.items };
}

/// An extent under its number.
#[derive(Drop)]
pub struct Object {
    pub number: u16,
    pub extent: Extent,
}

/// A set of users under its number.
#[derive(Drop)]
pub struct Group {
    pub number: u16,
    pub members: Members,
}

/// An authorization under the version that made it.
#[derive(Drop)]
pub struct NumberedAuth {
    pub number: u32,
    pub auth: SharedAuth,
}

impl Members {
    pub(crate) fn new(alloc: Global) -> Members
        ensures { result ≡ [] }
    {
        Members {
            numbers: Vec::new(alloc),
        }
    }

    pub(crate) fn put(&mut self, user: u16) -> Result<(), NoMemory>
        ensures ok { OnOk result (self.new ≡ put_by (λ n. n) user self.old) }
        ensures err { OnErr result (self.new ≡ self.old) }
    {
        put(&mut self.numbers, user)
    }

    pub(crate) fn take_out(&mut self, user: u16)
        ensures { self.new ≡ without (λ n. n) user self.old }
    {
        take_out(&mut self.numbers, user);
    }

    /// Whether the user is one of them.
    pub fn has(&self, user: u16) -> bool
        ensures { result ≡ has_number self.now user }
    {
        self.numbers.iter().any(|m| *m == user)
    }

    /// How many there are.
    pub fn len(&self) -> usize
        ensures { result ≡ length self.now }
    {
        self.numbers.len()
    }

    /// Their numbers, in ascending order.
    pub fn as_slice(&self) -> &[u16]
        ensures { result.now ≡ self.now }
    {
        self.numbers.as_slice()
    }
}

impl Numbered for Object {
    ghost number_of = { λ o. o.number };

    fn number(&self) -> u16 {
        self.number
    }
}

impl Numbered for Group {
    ghost number_of = { λ g. g.number };

    fn number(&self) -> u16 {
        self.number
    }
}

impl Copied for Object {
    fn copied(&self) -> Result<Object, NoMemory> {
        Ok(Object {
            number: self.number,
            extent: self.extent.copied()?,
        })
    }
}

impl Copied for Group {
    fn copied(&self) -> Result<Group, NoMemory> {
        let numbers = &self.members.numbers;
        let numbers = Vec::from_slice(*numbers.allocator(), numbers.as_slice())?;
        Ok(Group {
            number: self.number,
            members: Members { numbers },
        })
    }
}

impl Copied for NumberedAuth {
    fn copied(&self) -> Result<NumberedAuth, NoMemory> {
        Ok(NumberedAuth {
            number: self.number,
            auth: self.auth.shared()?,
        })
    }
}
