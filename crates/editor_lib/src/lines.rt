//! The lines of things that have a line each.
ghost use Rattle.std.specs.Prelude.{◌≡◌, ◌++◌, ℕ, List, IfOk, OnOk};
ghost use Rattle.std.specs.List.{flat_map};

use element_name::NoMemory;
use std::alloc::Global;

/// What has a line.
pub trait HasLine: Copy {
    /// Its line.
    ghost line: { Self → List ℕ };

    /// Appends its line.
    fn put_line(self, alloc: Global, lines: &mut Vec<u8>) -> Result<(), NoMemory>
        ensures { OnOk result (lines.new.items ≡ lines.old.items ++ line self) };
}

/// The lines of things, one behind another.
pub fn all_lines<T: HasLine>(alloc: Global, things: &[T]) -> Result<Vec<u8>, NoMemory>
    ensures { IfOk result (λ lines. lines.items ≡ flat_map T.line things.now) }
{
    let mut lines = Vec::new(alloc);
    for thing in things {
        thing.put_line(alloc, &mut lines)?;
    }
    Ok(lines)
}
