//! The limits of heads, by their numbers.
ghost use Rattle.std.specs.Prelude.{◌≡◌};

use crate::limits::{MAX_HEAD, MAX_HEADERS};

/// The limits in numbers.
pub fn limits()
    ensures head { MAX_HEAD ≡ 8192 }
    ensures headers { MAX_HEADERS ≡ 64 }
{}
