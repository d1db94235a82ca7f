//! Elements that come in.
ghost use Rattle.std.specs.Prelude.{◌≡◌, ◌<◌, ◌+◌, ◌^◌, [], ◌∷◌, OnOk, OnErr, false, length};
ghost use Rattle.element_name.specs.Name.{start, has_name, name_eq};
ghost use Rattle.tomb_seq.specs.Runs.{IsSpot, slots_of, slots_at, slots_with};
ghost use Rattle.tomb_seq.specs.Slots.{names_in};

use super::Blocks;
use crate::block::{self, BLOCK, Block};
use crate::slot::Slot;
use crate::spot::Spot;
use crate::{index, ranks};
use element_name::{Name, NoMemory};
use name_index::PackedName;

impl Blocks {
    /// Puts a first element in.
    ///
    /// All memory is taken before anything changes, here and in the next two.
    pub fn insert_first(&mut self, name: Name) -> Result<(), NoMemory>
        requires none { length self.old ≡ 0 }
        requires element { name_eq name start ≡ false }
        ensures ok { OnOk result (slots_of self.new ≡ record { name = name; shows = false } ∷ []) }
        ensures err { OnErr result (self.new ≡ self.old) }
    {
        let id = self.ranks.len();
        let slot = Slot {
            name: PackedName::of(name),
            shows: false,
        };
        let block = Block::with_slots(self.alloc, id, &[slot])?;
        ranks::reserve(&mut self.list, &mut self.ranks)?;
        self.lens.reserve()?;
        self.shows.reserve()?;
        index::put(&mut self.index, name, id)?;
        ranks::add(&mut self.list, &mut self.ranks, 0, block);
        self.lens.insert(0, 1);
        self.shows.insert(0, 0);
        self.len = 1;
        Ok(())
    }

    // Puts a new element in, into a block that isn't full.
    fn insert_here(&mut self, spot: Spot, name: Name) -> Result<(), NoMemory>
        requires spot { IsSpot self.old spot }
        requires room { length (slots_at self.old spot.rank) < BLOCK }
        requires new { has_name (names_in (slots_of self.old)) name ≡ false }
        requires element { name_eq name start ≡ false }
        requires count { length (slots_of self.old) + 1 < 2 ^ 64 }
        ensures ok { OnOk result (slots_of self.new ≡ slots_with self.old spot name) }
        ensures err { OnErr result (self.new ≡ self.old) }
    {
        let block = &mut self.list[spot.rank];
        index::put(&mut self.index, name, block.id())?;
        block.insert(spot.place, name);
        self.lens.set(spot.rank, block.len());
        self.len += 1;
        self.cursor = spot;
        Ok(())
    }

    // Puts a new element in, into a block that is full and becomes two.
    fn insert_split(&mut self, spot: Spot, name: Name) -> Result<(), NoMemory>
        requires spot { IsSpot self.old spot }
        requires full { length (slots_at self.old spot.rank) ≡ BLOCK }
        requires new { has_name (names_in (slots_of self.old)) name ≡ false }
        requires element { name_eq name start ≡ false }
        requires count { length (slots_of self.old) + 1 < 2 ^ 64 }
        ensures ok { OnOk result (slots_of self.new ≡ slots_with self.old spot name) }
        ensures err { OnErr result (self.new ≡ self.old) }
    {
        let id = self.ranks.len();
        let blocks = self.list.len();
        let kept = block::kept(spot.place, spot.rank == 0, spot.rank + 1 == blocks);
        let mut second = self.list[spot.rank].rest(self.alloc, id, kept)?;
        ranks::reserve(&mut self.list, &mut self.ranks)?;
        self.lens.reserve()?;
        self.shows.reserve()?;
        let first = &mut self.list[spot.rank];
        index::put(&mut self.index, name, first.id())?;
        block::divide(first, &mut second, kept, spot.place, name);
        self.lens.split(spot.rank, first.len(), second.len());
        self.shows.split(spot.rank, first.shown(), second.shown());
        ranks::add(&mut self.list, &mut self.ranks, spot.rank + 1, second);
        index::renumber(&mut self.index, self.list[spot.rank + 1].slots(), id);
        self.len += 1;
        Ok(())
    }

    /// Puts a new element in at a spot.
    pub fn insert(&mut self, spot: Spot, name: Name) -> Result<(), NoMemory>
        requires spot { IsSpot self.old spot }
        requires new { has_name (names_in (slots_of self.old)) name ≡ false }
        requires element { name_eq name start ≡ false }
        ensures ok { OnOk result (slots_of self.new ≡ slots_with self.old spot name) }
        ensures err { OnErr result (self.new ≡ self.old) }
    {
        if self.len == usize::MAX {
            return Err(NoMemory);
        }
        if self.list[spot.rank].len() < BLOCK {
            return self.insert_here(spot, name);
        }
        self.insert_split(spot, name)
    }
}
