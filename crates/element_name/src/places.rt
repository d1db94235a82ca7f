//! Elements in text order.
ghost use Rattle.std.specs.Prelude.{◌≡◌, ◌<◌, ◌⊎◌, List, IsTrue};
ghost use Rattle.std.specs.Prelude.{true, false};
ghost use Rattle.element_name.specs.Name.{start, has_name, are_distinct};
ghost use Rattle.element_name.specs.Places.{stands_before, fresh_stands_before, is_anchor};

use crate::name::Name;

/// A sequence of elements in text order, seen as the list of their names, which are distinct.
///
/// What an authorization covers is asked of it, so that the crate of authorizations needn't know how the
/// sequence is kept. No call takes memory.
pub trait Places {
    ghost use Rattle.element_name.specs.Name as spec;

    /// The names of its elements in text order.
    ghost names: { Self → List spec.Name };

    /// Whether the name is an element's.
    fn has(&self, n: Name) -> bool
        ensures found { result ≡ has_name (names self.now) n }
        ensures distinct { IsTrue (are_distinct (names self.now)) };

    /// Whether both are elements and the first has the smaller place.
    fn before(&self, a: Name, b: Name) -> bool
        ensures { result ≡ stands_before (names self.now) a b };

    /// Whether the element `fresh`, if it were made after `after`, would stand before `b`.
    fn fresh_before(&self, fresh: Name, after: Name, b: Name) -> bool
        requires new { has_name (names self.now) fresh ≡ false }
        requires anchored { IsTrue (is_anchor (names self.now) after) }
        requires rising { after.stamp < fresh.stamp }
        requires element { has_name (names self.now) b ≡ true }
        ensures { result ≡ fresh_stands_before (names self.now) fresh after b };
}
