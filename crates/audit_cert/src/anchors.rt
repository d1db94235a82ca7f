//! The checker's elements, each with its anchor.
ghost use Rattle.std.specs.Prelude.{◌≡◌, [], is_none, IfOk};
ghost use Rattle.element_name.specs.Name.{has_name};
ghost use Rattle.element_name.specs.Places.{is_anchor};
ghost use Rattle.tomb_seq.specs.Insert.{insert_fault};

use crate::elements::Elements;
use crate::ids::is_key;
use crate::order::{NameIndex, in_order};
use element_name::{Name, NoMemory};
use name_index::{ChunkMap, PackedName};
use std::alloc::Global;
use std::marker::Model;

/// Elements that come one by one, seen as the list of their names in text order.
///
/// The anchor of each is kept alone, which takes time logarithmic in their number. The order follows from the anchors
/// once all elements are there.
#[derive(Drop)]
pub(crate) struct Anchors {
    anchors: NameIndex,
}

impl Model for Anchors {
    ghost use Rattle.std.specs.Prelude.{List};
    ghost use Rattle.element_name.specs.Name.{Name};
    ghost use Rattle.element_name.specs.Tree.{order};
    ghost use Rattle.audit_cert.specs.Anchors.{IsAnchored, placed_from};

    ghost Value = { List Name };

    ghost view = { λ a. order (placed_from a.anchors) };

    ghost invariant = { λ a. IsAnchored a.anchors };
}

impl Anchors {
    /// No elements.
    pub(crate) fn new(alloc: Global) -> Anchors
        ensures { result ≡ [] }
    {
        Anchors {
            anchors: ChunkMap::new(alloc),
        }
    }

    fn has(&self, n: Name) -> bool
        ensures { result ≡ has_name self.now n }
    {
        is_key(&self.anchors, n)
    }

    fn is_anchor(&self, n: Name) -> bool
        ensures { result ≡ is_anchor self.now n }
    {
        n == Name::start() || self.has(n)
    }

    // Whether an element may be put in.
    fn may_come(&self, n: Name, after: Name) -> bool
        ensures { result ≡ is_none (insert_fault self.now n after) }
    {
        if n == Name::start() || self.has(n) {
            return false;
        }
        if !self.is_anchor(after) {
            return false;
        }
        n.stamp() > after.stamp()
    }

    /// The elements in text order. Takes time n log n in their number, and memory for a name or two of each.
    pub(crate) fn names(&self, alloc: Global) -> Result<Vec<Name>, NoMemory>
        ensures { IfOk result (λ names. names.items ≡ self.now) }
    {
        in_order(alloc, &self.anchors)
    }
}

impl Elements for Anchors {
    ghost names = { λ a. a };

    fn knows(&self, n: Name) -> bool {
        self.has(n)
    }

    fn put(&mut self, n: Name, after: Name) -> Result<bool, NoMemory> {
        if !self.may_come(n, after) {
            return Ok(false);
        }
        self.anchors
            .insert(PackedName::of(n), PackedName::of(after))?;
        Ok(true)
    }
}
