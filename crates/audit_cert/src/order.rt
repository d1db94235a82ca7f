//! The text order of elements, by their anchors.
ghost use Rattle.std.specs.Prelude.{◌≡◌, None, IfOk, OnOk};
ghost use Rattle.element_name.specs.Name.{Name, start};
ghost use Rattle.element_name.specs.Tree.{order};
ghost use Rattle.audit_cert.specs.Anchors.{IsAnchored, LeadsThrough, name_under, placed_from, put_behind};

use element_name::{Name, NoMemory};
use name_index::{ChunkMap, PackedName};
use std::alloc::Global;

/// From names to names.
pub(crate) type NameIndex = ChunkMap<PackedName, PackedName>;

// Puts a new name directly behind its anchor: the anchor leads to it, and it leads to where the anchor led.
fn put_behind(next: &mut NameIndex, anchor: PackedName, n: PackedName) -> Result<(), NoMemory>
    requires { name_under next.old n ≡ None }
    ensures { OnOk result ((m : Name) → name_under next.new m ≡ put_behind (name_under next.old) anchor n m) }
{
    if let Some(follower) = next.insert(anchor, n)? {
        next.insert(n, follower)?;
    }
    Ok(())
}

// Where each element leads: to the next one in the text. The start leads to the first.
//
// In ascending order of name each is the greatest so far, and so comes directly behind its anchor.
fn successors(alloc: Global, anchors: &NameIndex) -> Result<NameIndex, NoMemory>
    requires { IsAnchored anchors.now }
    ensures { IfOk result (λ next. LeadsThrough (name_under next) start (order (placed_from anchors.now))) }
{
    let mut next = ChunkMap::new(alloc);
    let mut coming = anchors.first();
    'names: for _ in 0..anchors.len() {
        let Some(entry) = coming else { unreachable!() };
        put_behind(&mut next, entry.1, entry.0)?;
        coming = anchors.next_above(entry.0);
    }
    Ok(next)
}

// The elements one after another, as each leads to the next.
fn follow(alloc: Global, anchors: &NameIndex, next: &NameIndex) -> Result<Vec<Name>, NoMemory>
    requires { LeadsThrough (name_under next.now) start (order (placed_from anchors.now)) }
    ensures { IfOk result (λ names. names.items ≡ order (placed_from anchors.now)) }
{
    let mut names = Vec::with_capacity(alloc, anchors.len())?;
    let mut last = PackedName::of(Name::start());
    while let Some(name) = next.get(last) {
        last = name;
        names.push(name.name())?;
    }
    Ok(names)
}

/// The text order of elements, each of which has its anchor here. Takes time n log n in their number, and memory for
/// two names of each.
pub(crate) fn in_order(alloc: Global, anchors: &NameIndex) -> Result<Vec<Name>, NoMemory>
    requires { IsAnchored anchors.now }
    ensures { IfOk result (λ names. names.items ≡ order (placed_from anchors.now)) }
{
    let next = successors(alloc, anchors)?;
    follow(alloc, anchors, &next)
}
