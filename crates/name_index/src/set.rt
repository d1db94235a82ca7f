//! An ordered set in chunks.
ghost use Rattle.std.specs.Prelude.{◌≡◌, [], true, false, cond, not, IfOk, OnOk, OnErr, length, slice_get};
ghost use Rattle.std.specs.List.{find, list_any};
ghost use Rattle.std.specs.List.Sorted.{IsStrictlySortedBy};
ghost use Rattle.std.specs.Ordering.{is_lt};
ghost use Rattle.std.specs.BTreeMap.{is_at};

use crate::map::ChunkMap;
use element_name::NoMemory;
use std::alloc::Global;
use std::marker::Model;

/// An ordered set of small keys, seen as the ascending list of them. Its calls cost what a [`ChunkMap`]'s do.
#[derive(Drop)]
pub struct ChunkSet<K: Ord + Copy> {
    map: ChunkMap<K, ()>,
}

impl<K: Ord + Copy> Model for ChunkSet<K> {
    ghost use Rattle.std.specs.Prelude.{List};
    ghost use Rattle.std.specs.Map.{keys_of};

    ghost Value = { List K };

    ghost view = { λ s. keys_of s.map };
}

impl<K: Ord + Copy> ChunkSet<K> {
    /// The set of no key. Takes no memory.
    pub fn new(alloc: Global) -> ChunkSet<K>
        ensures { result ≡ [] }
    {
        ChunkSet {
            map: ChunkMap::new(alloc),
        }
    }

    /// How many keys it has.
    pub fn len(&self) -> usize
        ensures count { result ≡ length self.now }
        ensures ordered { IsStrictlySortedBy K.cmp self.now }
    {
        self.map.len()
    }

    /// Whether it has a key.
    pub fn contains(&self, key: K) -> bool
        ensures found { result ≡ list_any (is_at (K.cmp key)) self.now }
        ensures ordered { IsStrictlySortedBy K.cmp self.now }
    {
        self.map.get(key).is_some()
    }

    /// The least key.
    pub fn first(&self) -> Option<K>
        ensures key { result ≡ slice_get self.now 0 }
        ensures ordered { IsStrictlySortedBy K.cmp self.now }
    {
        match self.map.first() {
            Some((key, _)) => Some(key),
            None => None,
        }
    }

    /// The least key above a given one.
    pub fn next_above(&self, key: K) -> Option<K>
        ensures key { result ≡ find (λ k. is_lt (K.cmp key k)) self.now }
        ensures ordered { IsStrictlySortedBy K.cmp self.now }
    {
        match self.map.next_above(key) {
            Some((key, _)) => Some(key),
            None => None,
        }
    }

    /// Puts a key in, and answers whether it is new.
    pub fn insert(&mut self, key: K) -> Result<bool, NoMemory>
        ensures new { IfOk result (λ new. list_any (is_at (K.cmp key)) self.old ≡ not new) }
        ensures updates { OnOk result ((q : K) → list_any (is_at (K.cmp q)) self.new ≡ cond (is_at (K.cmp key) q) true (list_any (is_at (K.cmp q)) self.old)) }
        ensures err { OnErr result (self.new ≡ self.old) }
        ensures ordered { IsStrictlySortedBy K.cmp self.new }
    {
        let old = self.map.insert(key, ())?;
        Ok(old.is_none())
    }

    /// Takes a key out, and answers whether it was there.
    pub fn remove(&mut self, key: K) -> bool
        ensures found { result ≡ list_any (is_at (K.cmp key)) self.old }
        ensures updates { (q : K) → list_any (is_at (K.cmp q)) self.new ≡ cond (is_at (K.cmp key) q) false (list_any (is_at (K.cmp q)) self.old) }
        ensures ordered { IsStrictlySortedBy K.cmp self.new }
    {
        self.map.remove(key).is_some()
    }
}
