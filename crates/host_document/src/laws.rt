//! The limit of rows, by its number.
ghost use Rattle.std.specs.Prelude.{◌≡◌};

use crate::row::MAX_ROW;

/// The limit in numbers.
pub fn limits()
    ensures { MAX_ROW ≡ 64 }
{}
