//! What the definitions say. A function does nothing: it stands for its statement.
ghost use Rattle.std.specs.Prelude.{◌≡◌};

use crate::limits::MAX_LINES;

/// How many step lines a watch takes, by its number.
pub fn limits()
    ensures { MAX_LINES ≡ 524287 }
{}
