//! Where elements stand in the text, as the checker asks it.
ghost use Rattle.std.specs.Prelude.{◌≡◌, ◌≤◌, ◌<◌, ◌^◌, true, length, IsTrue, IfOk, position};
ghost use Rattle.std.specs.List.{prefix_len};
ghost use Rattle.element_name.specs.Name.{Name, name_eq, name_lt, are_distinct};
ghost use Rattle.element_name.specs.Places.{is_anchor, place_in};
ghost use Rattle.element_name.specs.Tree.{after_anchor, skip};
ghost use Rattle.tomb_seq.specs.Runs.{number_at};

use element_name::{Name, NoMemory, Places};
use name_index::{ChunkMap, PackedName};
use std::alloc::Global;
use std::marker::Model;

/// Elements in text order, each of which is there once, seen as the list of their names.
///
/// A place is found in time logarithmic in their number. What a fresh element would stand in front of takes time in the
/// elements that it would pass.
#[derive(Drop)]
pub(crate) struct Ranks {
    names: Vec<Name>,
    places: ChunkMap<PackedName, usize>,
}

impl Model for Ranks {
    ghost use Rattle.std.specs.Prelude.{List};
    ghost use Rattle.element_name.specs.Name.{Name};
    ghost use Rattle.tomb_seq.specs.Runs.{number_at};
    ghost use Rattle.audit_cert.specs.Anchors.{AreRanked};

    ghost Value = { List Name };

    ghost view = { λ r. r.names.items };

    ghost invariant = { λ r. AreRanked r.names.items (number_at r.places) };
}

// The place of each name.
fn places_of(alloc: Global, names: &[Name]) -> Result<ChunkMap<PackedName, usize>, NoMemory>
    requires { are_distinct names.now ≡ true }
    ensures { IfOk result (λ places. (n : Name) → number_at places n ≡ position (name_eq n) names.now) }
{
    let mut places = ChunkMap::new(alloc);
    for (place, name) in names.iter().enumerate() {
        places.insert(PackedName::of(*name), place)?;
    }
    Ok(places)
}

// How many names are greater, one after another from the first.
fn greater(names: &[Name], n: Name) -> usize
    ensures { result ≡ prefix_len (name_lt n) names.now }
{
    names.iter().take_while(|m| n < **m).count()
}

impl Ranks {
    /// The places of names. Takes time n log n in their number, and memory for them.
    pub(crate) fn of(alloc: Global, names: Vec<Name>) -> Result<Ranks, NoMemory>
        requires { are_distinct names.items ≡ true }
        ensures { IfOk result (λ r. r ≡ names.items) }
    {
        let places = places_of(alloc, &names)?;
        Ok(Ranks { names, places })
    }

    /// The names.
    pub(crate) fn names(&self) -> &[Name]
        ensures { result.now ≡ self.now }
    {
        &self.names
    }

    // The place of an element, or the length.
    fn place(&self, n: Name) -> usize
        ensures place { result ≡ place_in self.now n }
        ensures few { length self.now < 2 ^ 64 }
    {
        self.places
            .get(PackedName::of(n))
            .unwrap_or(self.names.len())
    }

    // The place directly after the anchor.
    fn after_anchor(&self, anchor: Name) -> usize
        requires { IsTrue (is_anchor self.now anchor) }
        ensures place { result ≡ after_anchor self.now anchor }
        ensures within { result ≤ length self.now }
        ensures few { length self.now < 2 ^ 64 }
    {
        let place = self.place(anchor);
        if anchor == Name::start() {
            return 0;
        }
        place + 1
    }

    // That place, and past every next name that is greater.
    fn skip(&self, n: Name, anchor: Name) -> usize
        requires { IsTrue (is_anchor self.now anchor) }
        ensures { result ≡ skip self.now n anchor }
    {
        let from = self.after_anchor(anchor);
        from + greater(&self.names[from..], n)
    }
}

impl Places for Ranks {
    ghost names = { λ r. r };

    fn has(&self, n: Name) -> bool {
        self.place(n) < self.names.len()
    }

    fn before(&self, a: Name, b: Name) -> bool {
        let (first, second) = (self.place(a), self.place(b));
        first < second && second < self.names.len()
    }

    fn fresh_before(&self, fresh: Name, after: Name, b: Name) -> bool {
        self.skip(fresh, after) <= self.place(b)
    }
}
