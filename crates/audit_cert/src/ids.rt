//! The names of requests that were read.
ghost use Rattle.std.specs.Prelude.{◌≡◌, ◌+◌, ◌||◌, [], false, length, OnOk};
ghost use Rattle.std.specs.Map.{keys_of};
ghost use Rattle.element_name.specs.Name.{Name, name_eq, has_name};

use element_name::{Name, NoMemory};
use name_index::{ChunkMap, PackedName};
use std::alloc::Global;
use std::marker::Model;

/// Names, each of which is there once, seen as the list of them. A look-up takes time logarithmic in their number, and
/// they take 8 to 16 bytes each.
#[derive(Drop)]
pub(crate) struct Ids {
    names: ChunkMap<PackedName, ()>,
}

impl Model for Ids {
    ghost use Rattle.std.specs.Prelude.{List};
    ghost use Rattle.std.specs.Map.{keys_of};
    ghost use Rattle.element_name.specs.Name.{Name};

    ghost Value = { List Name };

    ghost view = { λ i. keys_of i.names };
}

/// Whether a name is a key of an index. Takes a look-up.
pub(crate) fn is_key<V: Copy>(index: &ChunkMap<PackedName, V>, n: Name) -> bool
    ensures { result ≡ has_name (keys_of index.now) n }
{
    index.get(PackedName::of(n)).is_some()
}

impl Ids {
    /// No names. Takes no memory.
    pub(crate) fn new(alloc: Global) -> Ids
        ensures { result ≡ [] }
    {
        Ids {
            names: ChunkMap::new(alloc),
        }
    }

    /// How many they are.
    pub(crate) fn len(&self) -> usize
        ensures { result ≡ length self.now }
    {
        self.names.len()
    }

    /// Whether a name is there.
    pub(crate) fn has(&self, n: Name) -> bool
        ensures { result ≡ has_name self.now n }
    {
        is_key(&self.names, n)
    }

    /// Puts a new name in.
    pub(crate) fn put(&mut self, n: Name) -> Result<(), NoMemory>
        requires { has_name self.old n ≡ false }
        ensures noted { OnOk result ((m : Name) → has_name self.new m ≡ (name_eq n m || has_name self.old m)) }
        ensures count { OnOk result (length self.new ≡ length self.old + 1) }
    {
        // That they ascend follows from what this says.
        let _ = self.names.len();
        self.names.insert(PackedName::of(n), ())?;
        Ok(())
    }
}
