//! Copies of the parts of a policy.
ghost use Rattle.std.specs.Prelude.{◌≡◌, IfOk};

use element_name::NoMemory;
use std::alloc::Global;

/// What is copied where memory is.
pub trait Copied: Drop {
    /// A value that equals this one.
    fn copied(&self) -> Result<Self, NoMemory>
        ensures { IfOk result (λ c. c ≡ self.now) };
}

pub fn copies<T: Copied>(alloc: Global, items: &[T]) -> Result<Vec<T>, NoMemory>
    ensures { IfOk result (λ v. v.items ≡ items.now) }
{
    let mut copies = Vec::with_capacity(alloc, items.len())?;
    for item in items {
        copies.push(item.copied()?)?;
    }
    Ok(copies)
}
