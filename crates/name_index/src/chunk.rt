//! A chunk of an index.
ghost use Rattle.std.specs.Prelude.{◌≡◌, ◌<◌, ◌≤◌, ◌+◌, ◌/◌, ◌++◌, ◌∷◌, [], Some, true, false, IfOk, OnOk, OnErr, is_some, length, take, drop, slice_get};
ghost use Rattle.std.specs.List.{find, insert, remove};
ghost use Rattle.std.specs.Ordering.{is_lt};
ghost use Rattle.std.specs.Map.{lookup, set_value, remove_entry};
ghost use Rattle.std.specs.BTreeMap.{is_at, insert_entry};
ghost use Rattle.name_index.specs.Chunks.{first_key, IsOrdered, IsPast, IsBefore, IsPlace, IsHit, IsInserted};

use element_name::NoMemory;
use std::alloc::Global;
use std::marker::Model;

/// Most entries of a chunk.
pub(crate) const CHUNK: usize = 64;

/// Entries in ascending order of key, one at least, with the first key beside them.
#[derive(Drop)]
pub(crate) struct Chunk<K: Ord + Copy, V: Copy> {
    first: K,
    entries: Vec<(K, V)>,
}

impl<K: Ord + Copy, V: Copy> Model for Chunk<K, V> {
    ghost use Rattle.std.specs.Prelude.{◌≡◌, List, Some};
    ghost use Rattle.name_index.specs.Chunks.{first_key};

    ghost Value = { List (K × V) };

    ghost view = { λ c. c.entries.items };

    ghost invariant = { λ c. first_key c.entries.items ≡ Some c.first };
}

/// The place of the first entry whose key isn't below the one that is sought.
fn place<K: Ord + Copy, V: Copy>(entries: &[(K, V)], key: K) -> usize
    requires ordered { IsOrdered K.cmp entries.now }
    ensures { IsPlace (K.cmp key) entries.now result }
{
    let mut low = 0;
    let mut high = entries.len();
    while low < high {
        let middle = low + (high - low) / 2;
        let other = entries[middle].0;
        if key.cmp(&other).is_gt() {
            low = middle + 1;
        } else {
            high = middle;
        }
    }
    low
}

/// The entry at a place.
fn entry_at<K: Copy, V: Copy>(entries: &[(K, V)], at: usize) -> Option<(K, V)>
    ensures { result ≡ slice_get entries.now at }
{
    entries.get(at).copied()
}

/// Whether the key stands at its place.
fn is_here<K: Ord + Copy, V: Copy>(entries: &[(K, V)], at: usize, key: K) -> bool
    requires ordered { IsOrdered K.cmp entries.now }
    requires place { IsPlace (K.cmp key) entries.now at }
    ensures hit { result ≡ true → IsHit (K.cmp key) entries.now at }
    ensures gap { result ≡ false → IsBefore (K.cmp key) (drop at entries.now) }
{
    if at == entries.len() {
        return false;
    }
    let other = entries[at].0;
    key.cmp(&other).is_eq()
}

/// Puts an entry in at a place, or leaves all as it was. Each entry behind it moves once.
fn put_at<K: Copy, V: Copy>(
    entries: &mut Vec<(K, V)>,
    at: usize,
    entry: (K, V),
) -> Result<(), NoMemory>
    requires { at ≤ length entries.old.items }
    ensures ok { OnOk result (entries.new.items ≡ insert entries.old.items at entry) }
    ensures len { OnOk result (length entries.new.items ≡ length entries.old.items + 1) }
    ensures err { OnErr result (entries.new.items ≡ entries.old.items) }
{
    let len = entries.len();
    entries.push(entry)?;
    entries.copy_within(at..len, at + 1);
    entries[at] = entry;
    Ok(())
}

/// Takes the entry at a place out. Each entry behind it moves once.
fn take_at<K: Copy, V: Copy>(entries: &mut Vec<(K, V)>, at: usize)
    requires { at < length entries.old.items }
    ensures entries { entries.new.items ≡ remove entries.old.items at }
    ensures len { length entries.new.items + 1 ≡ length entries.old.items }
{
    entries.copy_within(at + 1.., at);
    entries.pop();
}

impl<K: Ord + Copy, V: Copy> Chunk<K, V> {
    /// A chunk of one entry.
    pub(crate) fn one(alloc: Global, key: K, value: V) -> Result<Chunk<K, V>, NoMemory>
        ensures { IfOk result (λ c. c ≡ (key, value) ∷ []) }
    {
        let mut entries = Vec::new(alloc);
        entries.push((key, value))?;
        Ok(Chunk {
            first: key,
            entries,
        })
    }

    /// The first key.
    pub(crate) fn first(&self) -> K
        ensures { first_key self.now ≡ Some result }
    {
        self.first
    }

    /// The first entry.
    pub(crate) fn first_entry(&self) -> (K, V)
        ensures { slice_get self.now 0 ≡ Some result }
    {
        let _first = self.first;
        self.entries[0]
    }

    /// How many entries it has.
    pub(crate) fn len(&self) -> usize
        ensures { result ≡ length self.now }
    {
        self.entries.len()
    }

    /// Whether each of its keys is below the one that is sought.
    pub(crate) fn is_below(&self, key: K) -> bool
        requires ordered { IsOrdered K.cmp self.now }
        ensures past { result ≡ true → IsPast (K.cmp key) self.now }
        ensures some { is_some (first_key self.now) ≡ true }
    {
        let _first = self.first;
        let entries: &[(K, V)] = &self.entries;
        let last = entries[entries.len() - 1].0;
        key.cmp(&last).is_gt()
    }

    /// The value at a key.
    pub(crate) fn get(&self, key: K) -> Option<V>
        requires ordered { IsOrdered K.cmp self.now }
        ensures { result ≡ lookup (is_at (K.cmp key)) self.now }
    {
        let at = place(&self.entries, key);
        if is_here(&self.entries, at, key) {
            Some(self.entries[at].1)
        } else {
            None
        }
    }

    /// The first entry above a key.
    pub(crate) fn next_above(&self, key: K) -> Option<(K, V)>
        requires ordered { IsOrdered K.cmp self.now }
        ensures { result ≡ find (λ e. is_lt (K.cmp key e.0)) self.now }
    {
        let _first = self.entries[0];
        let at = place(&self.entries, key);
        if is_here(&self.entries, at, key) {
            entry_at(&self.entries, at + 1)
        } else {
            entry_at(&self.entries, at)
        }
    }

    /// Adds an entry behind all others.
    pub(crate) fn push(&mut self, key: K, value: V) -> Result<(), NoMemory>
        ensures ok { OnOk result (self.new ≡ self.old ++ (key, value) ∷ []) }
        ensures err { OnErr result (self.new ≡ self.old) }
    {
        self.entries.push((key, value))?;
        Ok(())
    }

    /// Puts an entry in at its place, or another value at a key that is there, whose value it answers.
    pub(crate) fn insert(&mut self, key: K, value: V) -> Result<Option<V>, NoMemory>
        requires ordered { IsOrdered K.cmp self.old }
        ensures ok { IfOk result (IsInserted K.cmp self.old key value self.new) }
        ensures err { OnErr result (self.new ≡ self.old) }
    {
        let at = place(&self.entries, key);
        if is_here(&self.entries, at, key) {
            let old = self.entries[at];
            self.entries[at] = (old.0, value);
            return Ok(Some(old.1));
        }
        put_at(&mut self.entries, at, (key, value))?;
        self.first = self.entries[0].0;
        Ok(None)
    }

    /// Writes another value at a key, if it is there.
    pub(crate) fn set(&mut self, key: K, value: V)
        requires ordered { IsOrdered K.cmp self.old }
        ensures { self.new ≡ set_value (is_at (K.cmp key)) self.old value }
    {
        let at = place(&self.entries, key);
        if is_here(&self.entries, at, key) {
            let old = self.entries[at];
            self.entries[at] = (old.0, value);
        }
    }

    /// Takes an entry out, of two or more, and answers its value.
    pub(crate) fn remove(&mut self, key: K) -> Option<V>
        requires ordered { IsOrdered K.cmp self.old }
        requires others { 1 < length self.old }
        ensures value { result ≡ lookup (is_at (K.cmp key)) self.old }
        ensures entries { self.new ≡ remove_entry (is_at (K.cmp key)) self.old }
    {
        let at = place(&self.entries, key);
        if is_here(&self.entries, at, key) {
            let value = self.entries[at].1;
            take_at(&mut self.entries, at);
            self.first = self.entries[0].0;
            Some(value)
        } else {
            None
        }
    }

    /// Its entries from a place on, in another chunk.
    pub(crate) fn upper(&self, alloc: Global, at: usize) -> Result<Chunk<K, V>, NoMemory>
        requires { at < length self.now }
        ensures { IfOk result (λ c. c ≡ drop at self.now) }
    {
        let upper = &self.entries[at..];
        let mut entries = Vec::new(alloc);
        entries.extend_from_slice(upper)?;
        Ok(Chunk {
            first: upper[0].0,
            entries,
        })
    }

    /// Keeps its entries in front of a place alone.
    pub(crate) fn keep_lower(&mut self, at: usize)
        requires some { 0 < at }
        requires within { at ≤ length self.old }
        ensures { self.new ≡ take at self.old }
    {
        self.entries.truncate(at);
    }
}
