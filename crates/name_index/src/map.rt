//! An ordered index in chunks.
ghost use Rattle.std.specs.Prelude.{◌≡◌, ◌<◌, ◌≤◌, ◌++◌, ◌∷◌, [], Some, None, IsSome, true, false, cond, IfOk, OnOk, OnErr, List, length, get_or, slice_get, if◌then◌else◌};
ghost use Rattle.std.specs.List.{find};
ghost use Rattle.std.specs.Ordering.{is_lt};
ghost use Rattle.std.specs.Map.{lookup, set_value, remove_entry};
ghost use Rattle.std.specs.BTreeMap.{is_at, insert_entry};
ghost use Rattle.name_index.specs.Chunks.{flat, IsOrdered, IsPast, IsSpot, IsInserted};

use crate::chunk::{CHUNK, Chunk};
use element_name::NoMemory;
use std::alloc::Global;
use std::marker::Model;

/// An ordered map from small keys to small values, seen as the list of its entries in ascending order of key.
///
/// The entries stand in chunks, each of one to 64 of them, with its first key beside the pointer to them. A look-up
/// is a search by halves for the chunk, over those first keys, and one within it: some 17 comparisons at 131,072
/// entries, whatever the keys. A key above all others is added behind the last in one comparison, so that where keys
/// ascend the chunks are full. Another moves at most 63 entries. A full chunk is cut in the middle, or for a key below
/// all others behind its first eighth, so that where keys fall the chunks are nearly full, and keys that only come leave
/// no chunk but the first and the last less than half full. That is once in 32 new keys at most, and moves at most 56
/// entries and the heads of the chunks behind it, of 32 bytes for a key of eight: at 131,072 entries at most 128 KB. A
/// chunk goes with its last entry. An entry takes its own size, 16 bytes for a packed name and a number of four, as far
/// as the chunks are full.
#[derive(Drop)]
pub struct ChunkMap<K: Ord + Copy, V: Copy> {
    alloc: Global,
    chunks: Vec<Chunk<K, V>>,
    len: usize,
}

impl<K: Ord + Copy, V: Copy> Model for ChunkMap<K, V> {
    ghost use Rattle.std.specs.Prelude.{List};
    ghost use Rattle.name_index.specs.Chunks.{flat, AreChunks};

    ghost Value = { List (K × V) };

    ghost view = { λ m. flat m.chunks.items };

    ghost invariant = { λ m. AreChunks K.cmp m.chunks.items m.len };
}

/// The chunk in which a key is, or belongs.
fn spot<K: Ord + Copy, V: Copy>(chunks: &[Chunk<K, V>], key: K) -> usize
    requires ordered { IsOrdered K.cmp (flat chunks.now) }
    requires some { 0 < length chunks.now }
    ensures { IsSpot (K.cmp key) chunks.now result }
{
    let mut low = 0;
    let mut high = chunks.len();
    while low + 1 < high {
        let middle = low + (high - low) / 2;
        if key.cmp(&chunks[middle].first()).is_lt() {
            high = middle;
        } else {
            low = middle;
        }
    }
    low
}

/// The first entry of all.
fn first_of<K: Ord + Copy, V: Copy>(chunks: &[Chunk<K, V>]) -> Option<(K, V)>
    ensures { result ≡ slice_get (flat chunks.now) 0 }
{
    if chunks.is_empty() {
        return None;
    }
    let chunk = &chunks[0];
    Some(chunk.first_entry())
}

/// Whether no key is as great as the one that is sought.
fn is_behind<K: Ord + Copy, V: Copy>(chunks: &[Chunk<K, V>], key: K) -> bool
    requires ordered { IsOrdered K.cmp (flat chunks.now) }
    ensures past { result ≡ true → IsPast (K.cmp key) (flat chunks.now) }
    ensures some { result ≡ false → 0 < length chunks.now }
{
    let len = chunks.len();
    len == 0 || chunks[len - 1].is_below(key)
}

/// Adds an entry behind all others.
fn append<K: Ord + Copy, V: Copy>(
    chunks: &mut Vec<Chunk<K, V>>,
    alloc: Global,
    key: K,
    value: V,
) -> Result<(), NoMemory>
    ensures ok { OnOk result (flat chunks.new.items ≡ flat chunks.old.items ++ (key, value) ∷ []) }
    ensures err { OnErr result (chunks.new.items ≡ chunks.old.items) }
{
    let len = chunks.len();
    if len > 0 && chunks[len - 1].len() < CHUNK {
        let last = &mut chunks[len - 1];
        last.push(key, value)?;
        return Ok(());
    }
    let chunk = Chunk::one(alloc, key, value)?;
    chunks.push(chunk)?;
    Ok(())
}

/// How many entries stay in a full chunk that is cut for a key: half of them, or an eighth for a key below all others,
/// so that where keys fall the chunks are nearly full.
fn staying<K: Ord + Copy, V: Copy>(chunk: &Chunk<K, V>, key: K) -> usize
    requires { 8 ≤ length chunk.now }
    ensures some { 0 < result }
    ensures fewer { result < length chunk.now }
{
    if key.cmp(&chunk.first()).is_lt() {
        chunk.len() / 8
    } else {
        chunk.len() / 2
    }
}

/// A chunk becomes two, of which the first has the entries in front of a place.
fn cut<K: Ord + Copy, V: Copy>(
    chunks: &mut Vec<Chunk<K, V>>,
    alloc: Global,
    c: usize,
    at: usize,
) -> Result<(), NoMemory>
    requires c { c < length chunks.old.items }
    requires some { 0 < at }
    requires within { (d : List (K × V)) → at < length (get_or chunks.old.items c d) }
    ensures entries { flat chunks.new.items ≡ flat chunks.old.items }
    ensures some { 0 < length chunks.new.items }
{
    let upper = chunks[c].upper(alloc, at)?;
    chunks.insert(c + 1, upper)?;
    let chunk = &mut chunks[c];
    chunk.keep_lower(at);
    Ok(())
}

/// The value at a key.
fn get_in<K: Ord + Copy, V: Copy>(chunks: &[Chunk<K, V>], key: K) -> Option<V>
    requires ordered { IsOrdered K.cmp (flat chunks.now) }
    ensures { result ≡ lookup (is_at (K.cmp key)) (flat chunks.now) }
{
    if chunks.is_empty() {
        return None;
    }
    let c = spot(chunks, key);
    let chunk = &chunks[c];
    chunk.get(key)
}

/// The entry of the least key above a given one.
fn next_in<K: Ord + Copy, V: Copy>(chunks: &[Chunk<K, V>], key: K) -> Option<(K, V)>
    requires ordered { IsOrdered K.cmp (flat chunks.now) }
    ensures { result ≡ find (λ e. is_lt (K.cmp key e.0)) (flat chunks.now) }
{
    if chunks.is_empty() {
        return None;
    }
    let c = spot(chunks, key);
    let chunk = &chunks[c];
    match chunk.next_above(key) {
        Some(entry) => Some(entry),
        None => first_of(&chunks[c + 1..]),
    }
}

/// The same as [`insert_in`], where the chunk is known in which the key is, or belongs.
fn insert_at<K: Ord + Copy, V: Copy>(
    chunks: &mut Vec<Chunk<K, V>>,
    c: usize,
    key: K,
    value: V,
) -> Result<Option<V>, NoMemory>
    requires ordered { IsOrdered K.cmp (flat chunks.old.items) }
    requires spot { IsSpot (K.cmp key) chunks.old.items c }
    ensures ok { IfOk result (IsInserted K.cmp (flat chunks.old.items) key value (flat chunks.new.items)) }
    ensures err { OnErr result (flat chunks.new.items ≡ flat chunks.old.items) }
{
    let chunk = &mut chunks[c];
    let old = chunk.insert(key, value)?;
    Ok(old)
}

/// Puts an entry in, or another value at a key that is there, whose value it answers.
fn insert_in<K: Ord + Copy, V: Copy>(
    chunks: &mut Vec<Chunk<K, V>>,
    alloc: Global,
    key: K,
    value: V,
) -> Result<Option<V>, NoMemory>
    requires ordered { IsOrdered K.cmp (flat chunks.old.items) }
    ensures ok { IfOk result (IsInserted K.cmp (flat chunks.old.items) key value (flat chunks.new.items)) }
    ensures err { OnErr result (flat chunks.new.items ≡ flat chunks.old.items) }
{
    if is_behind(chunks, key) {
        append(chunks, alloc, key, value)?;
        return Ok(None);
    }
    let c = spot(chunks, key);
    if chunks[c].len() < CHUNK {
        return insert_at(chunks, c, key, value);
    }
    let at = staying(&chunks[c], key);
    cut(chunks, alloc, c, at)?;
    let c = spot(chunks, key);
    insert_at(chunks, c, key, value)
}

/// Writes another value at a key, if it is there.
fn set_in<K: Ord + Copy, V: Copy>(chunks: &mut Vec<Chunk<K, V>>, key: K, value: V)
    requires ordered { IsOrdered K.cmp (flat chunks.old.items) }
    ensures { flat chunks.new.items ≡ set_value (is_at (K.cmp key)) (flat chunks.old.items) value }
{
    if chunks.is_empty() {
        return;
    }
    let c = spot(chunks, key);
    let chunk = &mut chunks[c];
    chunk.set(key, value);
}

/// Takes an entry out, whose value it answers.
fn remove_in<K: Ord + Copy, V: Copy>(chunks: &mut Vec<Chunk<K, V>>, key: K) -> Option<V>
    requires ordered { IsOrdered K.cmp (flat chunks.old.items) }
    ensures value { result ≡ lookup (is_at (K.cmp key)) (flat chunks.old.items) }
    ensures entries { flat chunks.new.items ≡ remove_entry (is_at (K.cmp key)) (flat chunks.old.items) }
{
    if chunks.is_empty() {
        return None;
    }
    let c = spot(chunks, key);
    if chunks[c].len() > 1 {
        let chunk = &mut chunks[c];
        return chunk.remove(key);
    }
    let Some(value) = chunks[c].get(key) else {
        return None;
    };
    chunks.remove(c);
    Some(value)
}

/// One entry, where a test says so.
fn one(entry: bool) -> usize
    ensures { result ≡ (if entry then 1 else 0) }
{
    usize::from(entry)
}

impl<K: Ord + Copy, V: Copy> ChunkMap<K, V> {
    /// The map of no entry. Takes no memory.
    pub fn new(alloc: Global) -> ChunkMap<K, V>
        ensures { result ≡ [] }
    {
        ChunkMap {
            alloc,
            chunks: Vec::new(alloc),
            len: 0,
        }
    }

    /// How many entries it has. Takes constant time.
    pub fn len(&self) -> usize
        ensures count { result ≡ length self.now }
        ensures ordered { IsOrdered K.cmp self.now }
    {
        self.len
    }

    /// The value at a key. Takes a look-up.
    pub fn get(&self, key: K) -> Option<V>
        ensures value { result ≡ lookup (is_at (K.cmp key)) self.now }
        ensures ordered { IsOrdered K.cmp self.now }
    {
        let _len = self.len;
        get_in(&self.chunks, key)
    }

    /// The entry of the least key. Takes constant time.
    pub fn first(&self) -> Option<(K, V)>
        ensures entry { result ≡ slice_get self.now 0 }
        ensures ordered { IsOrdered K.cmp self.now }
    {
        let _len = self.len;
        first_of(&self.chunks)
    }

    /// The entry of the least key above a given one. Takes a look-up.
    pub fn next_above(&self, key: K) -> Option<(K, V)>
        ensures entry { result ≡ find (λ e. is_lt (K.cmp key e.0)) self.now }
        ensures ordered { IsOrdered K.cmp self.now }
    {
        let _len = self.len;
        next_in(&self.chunks, key)
    }

    /// Puts an entry in, or another value at a key that is there, whose value it answers.
    ///
    /// Takes one comparison for a key above all others, and else a look-up and a move within a chunk. It may take memory
    /// for one chunk, and for the heads of the chunks.
    pub fn insert(&mut self, key: K, value: V) -> Result<Option<V>, NoMemory>
        ensures old { IfOk result (λ old. old ≡ lookup (is_at (K.cmp key)) self.old) }
        ensures entries { OnOk result (self.new ≡ insert_entry K.cmp self.old key value) }
        ensures updates { OnOk result ((q : K) → lookup (is_at (K.cmp q)) self.new ≡ cond (is_at (K.cmp key) q) (Some value) (lookup (is_at (K.cmp q)) self.old)) }
        ensures err { OnErr result (self.new ≡ self.old) }
        ensures ordered { IsOrdered K.cmp self.new }
    {
        if self.len == usize::MAX {
            return Err(NoMemory);
        }
        let old = insert_in(&mut self.chunks, self.alloc, key, value)?;
        self.len += one(old.is_none());
        Ok(old)
    }

    /// Writes another value at a key, if it is there. Takes a look-up, and no memory.
    pub fn set(&mut self, key: K, value: V)
        ensures entries { self.new ≡ set_value (is_at (K.cmp key)) self.old value }
        ensures updates { IsSome (lookup (is_at (K.cmp key)) self.old) → (q : K) → lookup (is_at (K.cmp q)) self.new ≡ cond (is_at (K.cmp key) q) (Some value) (lookup (is_at (K.cmp q)) self.old) }
        ensures ordered { IsOrdered K.cmp self.new }
    {
        set_in(&mut self.chunks, key, value);
    }

    /// Takes an entry out, whose value it answers. Takes a look-up and a move within a chunk, and no memory.
    pub fn remove(&mut self, key: K) -> Option<V>
        ensures value { result ≡ lookup (is_at (K.cmp key)) self.old }
        ensures entries { self.new ≡ remove_entry (is_at (K.cmp key)) self.old }
        ensures updates { (q : K) → lookup (is_at (K.cmp q)) self.new ≡ cond (is_at (K.cmp key) q) None (lookup (is_at (K.cmp q)) self.old) }
        ensures ordered { IsOrdered K.cmp self.new }
    {
        let value = remove_in(&mut self.chunks, key);
        self.len -= one(value.is_some());
        value
    }
}
