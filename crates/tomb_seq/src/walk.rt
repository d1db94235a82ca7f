//! Walks over blocks.
ghost use Rattle.std.specs.Prelude.{◌≡◌, ◌+◌, ◌++◌, OnOk, IfOk, drop};
ghost use Rattle.std.specs.List.{list_all, prefix_len};
ghost use Rattle.element_name.specs.Name.{name_lt};
ghost use Rattle.tomb_seq.specs.Runs.{IsSpot, slots_of, place_of};
ghost use Rattle.tomb_seq.specs.Slots.{names_in};

use crate::block::Block;
use crate::slot::{self, Slot};
use crate::spot::Spot;
use element_name::{Name, NoMemory};
use std::alloc::Global;

// Puts names behind others.
fn push_names(names: &mut Vec<Name>, slots: &[Slot]) -> Result<(), NoMemory>
    ensures { OnOk result (names.new.items ≡ names.old.items ++ names_in slots.now) }
{
    for s in slots {
        names.push(s.name.name())?;
    }
    Ok(())
}

/// The names of all blocks.
pub fn names_of(alloc: Global, list: &[Block]) -> Result<Vec<Name>, NoMemory>
    ensures { IfOk result (λ names. names.items ≡ names_in (slots_of list.now)) }
{
    let mut names = Vec::new(alloc);
    for block in list {
        push_names(&mut names, block.slots())?;
    }
    Ok(names)
}

// How many blocks have only names above this one, one after another.
fn above(list: &[Block], n: Name) -> usize
    ensures { result ≡ prefix_len (λ b. list_all (λ s. name_lt n s.name) b.slots) list.now }
{
    list.iter().take_while(|b| b.is_above(n)).count()
}

/// Past every next greater name of a block, and then of those behind it.
pub fn skip_from(list: &[Block], spot: Spot, n: Name) -> Spot
    requires { IsSpot list.now spot }
    ensures spot { IsSpot list.now result }
    ensures place { place_of list.now result
        ≡ place_of list.now spot + prefix_len (name_lt n) (drop (place_of list.now spot) (names_in (slots_of list.now))) }
{
    let Spot { rank, place } = spot;
    let slots = list[rank].slots();
    let end = place + slot::greater_from(slots, place, n);
    if end < slots.len() {
        return Spot { rank, place: end };
    }
    let next = rank + 1 + above(&list[rank + 1..], n);
    if next < list.len() {
        return Spot {
            rank: next,
            place: slot::greater_from(list[next].slots(), 0, n),
        };
    }
    let last = next - 1;
    Spot {
        rank: last,
        place: list[last].len(),
    }
}
