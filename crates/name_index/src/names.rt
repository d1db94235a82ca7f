//! A map from names to values of any type.
ghost use Rattle.std.specs.Prelude.{◌≡◌, ◌-◌, ◌<◌, [], Some, None, cond, OnOk, OnErr, length, slice_get};
ghost use Rattle.std.specs.Option.{option_copied, option_copied_mut};
ghost use Rattle.std.specs.Map.{lookup, keys_of, remove_entry};
ghost use Rattle.std.specs.BTreeMap.{is_at, insert_entry};
ghost use Rattle.std.specs.Borrow.{sem};
ghost use Rattle.element_name.specs.Name as spec;
ghost use Rattle.element_name.specs.Named.{name_cmp};
ghost use Rattle.name_index.specs.Chunks.{IsOrdered};
ghost use Rattle.name_index.specs.Rows.{IsFilled};
ghost use Rattle.name_index.specs.Lends.{lends_found};
ghost use Rattle.name_index.specs.RowLends.{lends_row_value};

use crate::map::ChunkMap;
use crate::packed::PackedName;
use element_name::{Name, NoMemory};
use std::alloc::Global;
use std::marker::Model;

/// A name and its value.
#[derive(Drop)]
struct Row<V> {
    name: PackedName,
    value: V,
}

impl<V> Model for Row<V> {
    ghost use Rattle.element_name.specs.Name as spec;

    ghost Value = { spec.Name × V };

    ghost view = { λ r. (r.name, r.value) };
}

impl<V> Row<V> {
    /// The value, to write.
    fn value_mut(&mut self) -> &mut V
        ensures* writes_back { sem 𝓛 (lends_row_value V.row self.entry result) }
        ensures value { result.now ≡ self.old.1 }
    {
        &mut self.value
    }
}

/// An ordered map from names to values, seen as the list of its entries in ascending order of name.
///
/// The values stand in rows in the order in which they came, and a [`ChunkMap`] has the number of each name's row. So
/// a value isn't moved when another comes, as far as there is room for rows, and needs no box of its own. A look-up is
/// one in the index. An entry takes 16 bytes there as far as its chunks are full, and a row of the value and eight
/// bytes; there is room for up to twice as many rows as there are. An entry that is taken out leaves no hole: the last
/// row moves into its place.
#[derive(Drop)]
pub struct NameMap<V> {
    index: ChunkMap<PackedName, u32>,
    rows: Vec<Row<V>>,
}

impl<V> Model for NameMap<V> {
    ghost use Rattle.std.specs.Prelude.{List};
    ghost use Rattle.std.specs.Map.{keys_of};
    ghost use Rattle.element_name.specs.Name as spec;
    ghost use Rattle.name_index.specs.Rows.{by_name, AreNumbered};

    ghost Value = { List (spec.Name × V) };

    ghost view = { λ m. by_name m.rows.items };

    ghost invariant = { λ m. AreNumbered m.index (keys_of m.rows.items) };
}

/// Takes a row out: the last one moves into its place.
fn take_row<V: Drop>(rows: &mut Vec<Row<V>>, at: usize)
    requires { at < length rows.old.items }
    ensures { IsFilled rows.old.items at rows.new.items }
{
    if let Some(last) = rows.pop() {
        if at < rows.len() {
            rows[at] = last;
        }
    }
}

/// The name in the last row.
fn last_name<V>(rows: &[Row<V>]) -> PackedName
    requires { 0 < length rows.now }
    ensures { slice_get (keys_of rows.now) (length rows.now - 1) ≡ Some result }
{
    let row = &rows[rows.len() - 1];
    row.name
}

impl<V: Drop> NameMap<V> {
    /// The map of no entry. Takes no memory.
    pub fn new(alloc: Global) -> NameMap<V>
        ensures { result ≡ [] }
    {
        NameMap {
            index: ChunkMap::new(alloc),
            rows: Vec::new(alloc),
        }
    }

    /// The value at a name. Takes a look-up.
    pub fn get(&self, name: Name) -> Option<&V>
        ensures value { option_copied result ≡ lookup (is_at (name_cmp name)) self.now }
        ensures ordered { IsOrdered name_cmp self.now }
    {
        match self.index.get(PackedName::of(name)) {
            Some(number) => Some(&self.rows[number as usize].value),
            None => None,
        }
    }

    /// The value at a name, to write. Takes a look-up.
    pub fn get_mut(&mut self, name: Name) -> Option<&mut V>
        ensures* writes_back { sem 𝓛 (lends_found V.row self.entry name result) }
        ensures value { option_copied_mut result ≡ lookup (is_at (name_cmp name)) self.old }
    {
        match self.index.get(PackedName::of(name)) {
            Some(number) => Some(self.rows[number as usize].value_mut()),
            None => None,
        }
    }

    /// Puts in an entry of a new name.
    ///
    /// Takes one comparison for a name above all others, and else a look-up and a move within a chunk. It may take
    /// memory for one chunk, for the heads of the chunks, and for rows.
    pub fn insert(&mut self, name: Name, value: V) -> Result<(), NoMemory>
        requires new { lookup (is_at (name_cmp name)) self.old ≡ None }
        ensures entries { OnOk result (self.new ≡ insert_entry name_cmp self.old name value) }
        ensures updates { OnOk result ((q : spec.Name) → lookup (is_at (name_cmp q)) self.new ≡ cond (is_at (name_cmp name) q) (Some value) (lookup (is_at (name_cmp q)) self.old)) }
        ensures err { OnErr result (self.new ≡ self.old) }
        ensures ordered { OnOk result (IsOrdered name_cmp self.new) }
    {
        let key = PackedName::of(name);
        let number = self.rows.len();
        if number >= u32::MAX as usize {
            return Err(NoMemory);
        }
        self.rows.push(Row { name: key, value })?;
        match self.index.insert(key, number as u32) {
            Ok(_) => Ok(()),
            Err(_) => {
                self.rows.pop();
                Err(NoMemory)
            }
        }
    }

    /// Takes an entry out, if it is there. Takes three look-ups and a move within a chunk, and no memory.
    pub fn remove(&mut self, name: Name)
        ensures entries { self.new ≡ remove_entry (is_at (name_cmp name)) self.old }
        ensures updates { (q : spec.Name) → lookup (is_at (name_cmp q)) self.new ≡ cond (is_at (name_cmp name) q) None (lookup (is_at (name_cmp q)) self.old) }
        ensures ordered { IsOrdered name_cmp self.new }
    {
        let key = PackedName::of(name);
        let Some(number) = self.index.get(key) else {
            return;
        };
        self.index.set(last_name(&self.rows), number);
        self.index.remove(key);
        take_row(&mut self.rows, number as usize);
    }
}
