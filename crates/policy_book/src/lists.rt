//! Lists of numbers and of names.
ghost use Rattle.std.specs.Prelude.{◌≡◌, ◌↔◌, length, slice_get, nat_lt, IsTrue, IfOk};
ghost use Rattle.std.specs.List.{list_all};
ghost use Rattle.element_name.specs.Cases.{when};
ghost use Rattle.element_name.specs.Numbered.{is_rising};
ghost use Rattle.element_name.specs.Name.{name_lt, has_name};
ghost use Rattle.policy_book.specs.Lists.{has_number, is_short, is_name, is_num_list, is_name_list};

use crate::limits::{MAX_NAMES, MAX_NUMBERS};
use element_name::{Name, NoMemory};
use std::marker::Model;

/// 1 to [`MAX_NUMBERS`] numbers of users, groups or objects, strictly ascending.
#[derive(Drop)]
pub struct NumList {
    numbers: Vec<u16>,
}

impl Model for NumList {
    ghost use Rattle.std.specs.Prelude.{◌≡◌, ℕ, List, true};
    ghost use Rattle.policy_book.specs.Lists.{is_num_list};

    ghost Value = { List ℕ };

    ghost view = { λ l. l.numbers.items };

    ghost invariant = { λ l. is_num_list l.numbers.items ≡ true };
}

/// 1 to [`MAX_NAMES`] names, strictly ascending.
#[derive(Drop)]
pub struct NameList {
    names: Vec<Name>,
}

impl Model for NameList {
    ghost use Rattle.std.specs.Prelude.{◌≡◌, List, true};
    ghost use Rattle.element_name.specs.Name as spec;
    ghost use Rattle.policy_book.specs.Lists.{is_name_list};

    ghost Value = { List spec.Name };

    ghost view = { λ l. l.names.items };

    ghost invariant = { λ l. is_name_list l.names.items ≡ true };
}

fn are_rising(numbers: &[u16]) -> bool
    ensures rising { result ≡ is_rising nat_lt numbers.now }
    ensures short { IsTrue (list_all is_short numbers.now) }
{
    match numbers {
        [first, rest @ ..] => {
            let first = *first;
            are_rising(rest) && rest.first().is_none_or(|next| first < *next)
        }
        [] => true,
    }
}

fn is_below(a: Name, b: Name) -> bool
    ensures { result ≡ name_lt a b }
{
    a.stamp() < b.stamp() || (a.stamp() == b.stamp() && a.site() < b.site())
}

fn are_rising_names(names: &[Name]) -> bool
    ensures rising { result ≡ is_rising name_lt names.now }
    ensures in_range { IsTrue (list_all is_name names.now) }
{
    match names {
        [first, rest @ ..] => {
            let first = *first;
            let _ = first.stamp();
            are_rising_names(rest) && rest.first().is_none_or(|next| is_below(first, *next))
        }
        [] => true,
    }
}

fn are_same_names(names: &[Name], others: &[Name]) -> bool
    ensures { IsTrue result ↔ (names.now ≡ others.now) }
{
    names == others
}

impl NumList {
    /// The list of these numbers; none where there are none, more than [`MAX_NUMBERS`], or they don't ascend strictly.
    pub fn checked(numbers: Vec<u16>) -> Option<NumList>
        ensures { result ≡ when (is_num_list numbers.items) numbers.items }
    {
        if numbers.is_empty() || numbers.len() > MAX_NUMBERS || !are_rising(&numbers) {
            return None;
        }
        Some(NumList { numbers })
    }

    /// How many there are, at least 1.
    pub fn len(&self) -> u32
        ensures value { result ≡ length self.now }
        ensures ascending { IsTrue (is_num_list self.now) }
    {
        self.numbers.len() as u32
    }

    /// The number at a place, from 0.
    pub fn at(&self, i: u32) -> Option<u16>
        ensures { result ≡ slice_get self.now i }
    {
        self.numbers.get(i as usize).copied()
    }

    /// The numbers in ascending order.
    pub fn as_slice(&self) -> &[u16]
        ensures value { result.now ≡ self.now }
        ensures ascending { IsTrue (is_num_list self.now) }
    {
        self.numbers.as_slice()
    }

    /// Whether the number is one of them.
    pub fn has(&self, n: u16) -> bool
        ensures { result ≡ has_number self.now n }
    {
        self.numbers.iter().any(|m| *m == n)
    }

    /// Whether the other equals this one.
    pub fn same(&self, other: &NumList) -> bool
        ensures { IsTrue result ↔ (self.now ≡ other.now) }
    {
        self.numbers.as_slice() == other.numbers.as_slice()
    }

    /// A list that equals this one, from the same allocator.
    pub fn copied(&self) -> Result<NumList, NoMemory>
        ensures { IfOk result (λ c. c ≡ self.now) }
    {
        let alloc = *self.numbers.allocator();
        let numbers = Vec::from_slice(alloc, self.numbers.as_slice())?;
        Ok(NumList { numbers })
    }
}

impl NameList {
    /// The list of these names; none where there are none, more than [`MAX_NAMES`], or they don't ascend strictly.
    pub fn checked(names: Vec<Name>) -> Option<NameList>
        ensures { result ≡ when (is_name_list names.items) names.items }
    {
        if names.is_empty() || names.len() > MAX_NAMES || !are_rising_names(&names) {
            return None;
        }
        Some(NameList { names })
    }

    /// How many there are, at least 1.
    pub fn len(&self) -> u32
        ensures value { result ≡ length self.now }
        ensures ascending { IsTrue (is_name_list self.now) }
    {
        self.names.len() as u32
    }

    /// The name at a place, from 0.
    pub fn at(&self, i: u32) -> Option<Name>
        ensures { result ≡ slice_get self.now i }
    {
        self.names.get(i as usize).copied()
    }

    /// The names in ascending order.
    pub fn as_slice(&self) -> &[Name]
        ensures value { result.now ≡ self.now }
        ensures ascending { IsTrue (is_name_list self.now) }
    {
        self.names.as_slice()
    }

    /// Whether the name is one of them.
    pub fn has(&self, n: Name) -> bool
        ensures { result ≡ has_name self.now n }
    {
        self.names.iter().any(|m| *m == n)
    }

    /// Whether the other equals this one.
    pub fn same(&self, other: &NameList) -> bool
        ensures { IsTrue result ↔ (self.now ≡ other.now) }
    {
        are_same_names(&self.names, &other.names)
    }

    /// A list that equals this one, from the same allocator.
    pub fn copied(&self) -> Result<NameList, NoMemory>
        ensures { IfOk result (λ c. c ≡ self.now) }
    {
        let alloc = *self.names.allocator();
        let names = Vec::from_slice(alloc, self.names.as_slice())?;
        Ok(NameList { names })
    }
}
