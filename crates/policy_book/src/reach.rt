//! Whose requests an operation may deny.
ghost use Rattle.std.specs.Prelude.{◌≡◌, ◌≤◌, [], ◌∷◌, length, slice_get};
ghost use Rattle.element_name.specs.Rows.{row_from};
ghost use Rattle.policy_book.specs.Lists.{has_number};
ghost use Rattle.policy_book.specs.Reach.{reach_of_users, reach_of_added, reach_of_removed};

use crate::auth::{Auth, UserSet};
use crate::limits::MAX_NUMBERS;
use crate::lists::NumList;
use std::marker::Model;

/// At most [`MAX_NUMBERS`] user numbers, seen as their list.
///
/// They lie in a fixed row, so that a reach is `Copy` and never takes memory.
#[derive(Clone, Copy, Debug, PartialEq, Eq)]
pub struct UserRow {
    row: [u16; MAX_NUMBERS],
    len: u8,
}

impl Model for UserRow {
    ghost use Rattle.std.specs.Prelude.{ℕ, List, length};
    ghost use Rattle.element_name.specs.Rows.{IsRow, row_items, row_from, row_again, len_again};
    ghost use Rattle.policy_book.specs.declared.limits.TheConstants.{MAX_NUMBERS};

    ghost Value = { List ℕ };

    ghost view = { λ r. row_items r.row r.len };

    ghost invariant = { λ r. IsRow MAX_NUMBERS r.row r.len };

    ghost inverse = { λ items. record { row = row_from MAX_NUMBERS items; len = length items } };

    ghost inverse_ok = { λ r h i. record { row = row_again MAX_NUMBERS r.row r.len h i; len = len_again MAX_NUMBERS r.row r.len h i } };
}

/// Whose requests an operation may deny.
#[derive(Clone, Copy, Debug, PartialEq, Eq)]
pub enum Reach {
    Nobody,
    Users(UserRow),
    Everyone,
}

// The numbers, and zeros up to 16.
fn row_of(numbers: &[u16]) -> [u16; MAX_NUMBERS]
    requires { length numbers.now ≤ MAX_NUMBERS }
    ensures { result ≡ row_from MAX_NUMBERS numbers.now }
{
    let mut row = [0; MAX_NUMBERS];
    for (i, n) in numbers.iter().enumerate() {
        row[i] = *n;
    }
    row
}

impl Reach {
    pub(crate) fn of_one(user: u16) -> Reach
        ensures { result ≡ Reach.Users (user ∷ []) }
    {
        Reach::Users(UserRow {
            row: row_of(&[user]),
            len: 1,
        })
    }

    fn of_users(users: &UserSet) -> Reach
        ensures { result ≡ reach_of_users users.now }
    {
        match users {
            UserSet::All | UserSet::Groups(_) => Reach::Everyone,
            UserSet::Listed(numbers) => Reach::Users(UserRow::of(numbers)),
        }
    }

    // A new positive authorization denies nobody.
    pub(crate) fn of_added(auth: &Auth) -> Reach
        ensures { result ≡ reach_of_added auth.now }
    {
        if auth.grant {
            return Reach::Nobody;
        }
        Reach::of_users(&auth.users)
    }

    // An old negative authorization, once removed, denies nobody.
    pub(crate) fn of_removed(auth: &Auth) -> Reach
        ensures { result ≡ reach_of_removed auth.now }
    {
        if !auth.grant {
            return Reach::Nobody;
        }
        Reach::of_users(&auth.users)
    }
}

impl UserRow {
    fn of(numbers: &NumList) -> UserRow
        ensures { result ≡ numbers.now }
    {
        let numbers = numbers.as_slice();
        UserRow {
            row: row_of(numbers),
            len: numbers.len() as u8,
        }
    }

    /// How many there are.
    pub fn len(&self) -> u32
        ensures { result ≡ length self.now }
    {
        u32::from(self.len)
    }

    /// The number at a place, from 0.
    pub fn at(&self, i: u32) -> Option<u16>
        ensures { result ≡ slice_get self.now i }
    {
        self.row[..self.len as usize].get(i as usize).copied()
    }

    /// Whether the user is one of them.
    pub fn has(&self, user: u16) -> bool
        ensures { result ≡ has_number self.now user }
    {
        self.row[..self.len as usize].iter().any(|n| *n == user)
    }
}
