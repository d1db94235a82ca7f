//! The list.
ghost use Rattle.std.specs.Prelude.{◌≡◌, List, []};
ghost use Rattle.std.specs.Borrow.{ftrue};

use std::marker::{Model, PhantomData};

/// A list that clauses read as `items`. It takes no memory, and its calls do nothing when they run.
#[derive(Drop)]
pub struct GhostList<T> {
    of: PhantomData<T>,
    pub ghost items: { List T },
}

impl<T> Model for GhostList<T> {
    ghost also_owns = { λ _. ftrue };
}

// It owns nothing.
unsafe impl<T> Send for GhostList<T> {}

impl<T> GhostList<T> {
    /// The empty list.
    pub fn new() -> GhostList<T>
        ensures { result.items ≡ [] }
    {
        GhostList::made()
    }

    /// The list that the caller's proof makes of this one and of a value.
    pub fn changed<U>(&self, _by: &U) -> GhostList<T>
        ghost list: { List T }
        ensures { result.items ≡ list }
    {
        GhostList::made()
    }

    // The list that the caller's proof names.
    fn made() -> GhostList<T>
        ghost list: { List T }
        ensures { result.items ≡ list }
    {
        GhostList { of: PhantomData }
    }
}
