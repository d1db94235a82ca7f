//! Numbers, one for each block, and the sums of their groups.
ghost use Rattle.std.specs.Prelude.{◌≡◌, ◌<◌, ◌≤◌, ◌+◌, ◌*◌, ◌^◌, [], OnOk, length, min, set, slice_index, sum, insert, remove, vec_len};
ghost use Rattle.std.specs.Vec.{vec_capacity};
ghost use Rattle.tomb_seq.specs.Sums.{AreGrouped, sum_before};

use crate::spot::Spot;
use element_name::NoMemory;
use std::alloc::Global;
use std::marker::Model;

/// How many numbers a group has.
const GROUP: usize = 32;

/// Numbers, with the sum of each group of them, so that a sum of n of them takes n/32 steps, and at most 31.
///
/// A group stays when numbers go, for those that come later.
#[derive(Drop)]
pub struct Sums {
    parts: Vec<usize>,
    groups: Vec<usize>,
    total: usize,
}

impl Model for Sums {
    ghost use Rattle.std.specs.Prelude.{◌*◌, length};
    ghost use Rattle.std.specs.Vec.{vec_capacity};
    ghost use Rattle.tomb_seq.specs.Sums.{Numbers, AreSums};
    ghost use Rattle.tomb_seq.specs.declared.sums.TheConstants.{GROUP};

    ghost Value = { Numbers };

    ghost view = { λ s. record { parts = s.parts.items; room = GROUP * length s.groups.items } };

    ghost invariant = { λ s. AreSums s.parts.items s.groups.items (vec_capacity s.parts) s.total };
}

// The sum of numbers.
fn sum_of(numbers: &[usize]) -> usize
    requires { sum numbers.now < 2 ^ 64 }
    ensures { result ≡ sum numbers.now }
{
    numbers.iter().sum()
}

// The rank of the number in which a place falls, and the place in it.
#[tactic(auto, using(crate::proofs::SumLemmas::before_more, crate::proofs::SumLemmas::before_le, crate::proofs::SumLemmas::before_all))]
fn find_in(numbers: &[usize], place: usize) -> Spot
    requires { place < sum numbers.now }
    ensures rank { result.rank < length numbers.now }
    ensures within { result.place < slice_index numbers.now result.rank }
    ensures place { sum_before numbers.now result.rank + result.place ≡ place }
{
    let mut rest = place;
    for (rank, number) in numbers.iter().enumerate() {
        if rest < *number {
            return Spot { rank, place: rest };
        }
        rest -= *number;
    }
    unreachable!()
}

// How many numbers the first group has.
fn head_len(numbers: &[usize]) -> usize
    ensures { result ≡ min GROUP (length numbers.now) }
{
    GROUP.min(numbers.len())
}

// Sums each group anew.
fn regroup(parts: &[usize], groups: &mut [usize])
    requires cover { length parts.now ≤ GROUP * length groups.old }
    requires fits { sum parts.now < 2 ^ 64 }
    ensures grouped { AreGrouped parts.now groups.new }
    ensures size { length groups.new ≡ length groups.old }
{
    let mut rest = parts;
    for sum in groups.iter_mut() {
        let size = head_len(rest);
        *sum = sum_of(&rest[..size]);
        rest = &rest[size..];
    }
}

// Puts a number in at a rank. The memory is there.
fn put(parts: &mut Vec<usize>, rank: usize, number: usize)
    requires rank { rank ≤ length parts.old.items }
    requires room { vec_len parts.old < vec_capacity parts.old }
    ensures items { parts.new.items ≡ insert parts.old.items rank number }
    ensures capacity { vec_capacity parts.old ≤ vec_capacity parts.new }
{
    let _ = parts.insert(rank, number);
}

impl Sums {
    /// No number. Takes no memory.
    pub fn new(alloc: Global) -> Sums
        ensures { result.parts ≡ [] }
    {
        Sums {
            parts: Vec::new(alloc),
            groups: Vec::new(alloc),
            total: 0,
        }
    }

    /// The sum of all.
    pub fn total(&self) -> usize
        ensures { result ≡ sum self.now.parts }
    {
        self.total
    }

    /// The sum of those in front of a rank.
    pub fn before(&self, rank: usize) -> usize
        requires { rank ≤ length self.now.parts }
        ensures { result ≡ sum_before self.now.parts rank }
    {
        let _total = self.total;
        let group = rank / GROUP;
        sum_of(&self.groups[..group]) + sum_of(&self.parts[group * GROUP..rank])
    }

    /// The rank of the number in which a place falls, and the place in it.
    pub fn find(&self, place: usize) -> Spot
        requires { place < sum self.now.parts }
        ensures rank { result.rank < length self.now.parts }
        ensures within { result.place < slice_index self.now.parts result.rank }
        ensures place { sum_before self.now.parts result.rank + result.place ≡ place }
    {
        let group = find_in(&self.groups, place);
        let first = group.rank * GROUP;
        let spot = find_in(&self.parts[first..], group.place);
        Spot {
            rank: first + spot.rank,
            place: spot.place,
        }
    }

    /// Another number at a rank, in one step.
    pub fn set(&mut self, rank: usize, number: usize)
        requires rank { rank < length self.old.parts }
        requires fits { sum (set self.old.parts rank number) < 2 ^ 64 }
        ensures parts { self.new.parts ≡ set self.old.parts rank number }
        ensures room { self.new.room ≡ self.old.room }
    {
        let was = self.parts[rank];
        let group = rank / GROUP;
        self.parts[rank] = number;
        self.groups[group] = self.groups[group] - was + number;
        self.total = self.total - was + number;
    }

    /// Takes the memory for one more number, or fails and leaves all as it was.
    pub fn reserve(&mut self) -> Result<(), NoMemory>
        ensures parts { self.new.parts ≡ self.old.parts }
        ensures room { OnOk result (length self.new.parts < self.new.room) }
    {
        if self.parts.len() / GROUP < self.groups.len() {
            return Ok(());
        }
        self.parts.reserve(GROUP)?;
        self.groups.push(0)?;
        Ok(())
    }

    /// One more number at a rank. The memory is there.
    pub fn insert(&mut self, rank: usize, number: usize)
        requires rank { rank ≤ length self.old.parts }
        requires room { length self.old.parts < self.old.room }
        requires fits { sum self.old.parts + number < 2 ^ 64 }
        ensures { self.new.parts ≡ insert self.old.parts rank number }
    {
        put(&mut self.parts, rank, number);
        regroup(&self.parts, &mut self.groups);
        self.total += number;
    }

    /// The number at a rank becomes two, which may have one more between them. The memory is there.
    pub fn split(&mut self, rank: usize, first: usize, second: usize)
        requires rank { rank < length self.old.parts }
        requires room { length self.old.parts < self.old.room }
        requires next { rank + 1 < 2 ^ 64 }
        requires both { first + second ≤ slice_index self.old.parts rank + 1 }
        requires fits { sum self.old.parts + 1 < 2 ^ 64 }
        ensures { self.new.parts ≡ insert (set self.old.parts rank first) (rank + 1) second }
    {
        self.set(rank, first);
        self.insert(rank + 1, second);
    }

    /// The number at a rank goes.
    pub fn remove(&mut self, rank: usize)
        requires { rank < length self.old.parts }
        ensures { self.new.parts ≡ remove self.old.parts rank }
    {
        let gone = self.parts.remove(rank);
        regroup(&self.parts, &mut self.groups);
        self.total -= gone;
    }
}
