//! The limit of wrong keys, by its number.
ghost use Rattle.std.specs.Prelude.{◌≡◌};

use crate::wrong_keys::MAX_WRONG_KEYS;

/// The limit in numbers.
pub fn limits()
    ensures { MAX_WRONG_KEYS ≡ 4096 }
{}
