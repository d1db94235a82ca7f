//! How long a line is, and why one isn't taken.
ghost use Rattle.std.specs.Prelude.{◌≡◌};
ghost use Rattle.line_spelling.specs.declared.line.LineFail.TheVariants as fails;

use std::alloc::{AllocError, AllocFailed};

/// How many bytes a line has at most, without its line end. A longer one is bad.
pub const MAX_LINE: usize = 1_024;

/// Why a line, or the end, isn't answered.
#[derive(Clone, Copy, Debug, PartialEq, Eq)]
pub enum LineFail {
    /// The line isn't in the grammar, or the end comes where one more line had to stand.
    Bad,
    /// Memory was wanting.
    NoMemory,
}

impl From<AllocError> for LineFail {
    ghost from_gives = { λ _ e. e ≡ fails.NoMemory };

    fn from(_e: AllocError) -> LineFail {
        LineFail::NoMemory
    }
}

impl<T: Drop> From<AllocFailed<T>> for LineFail {
    ghost from_gives = { λ _ e. e ≡ fails.NoMemory };

    fn from(_e: AllocFailed<T>) -> LineFail {
        LineFail::NoMemory
    }
}
