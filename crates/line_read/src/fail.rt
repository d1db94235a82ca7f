//! What was read, if anything was.
ghost use Rattle.std.specs.Prelude.{◌≡◌, ℕ, Option, IfOk};
ghost use Rattle.line_read.specs.ReadsAs.{ReadsAs};

use element_name::NoMemory;
use line_spelling::LineFail;

/// What was read; none where the words were bad.
pub(crate) fn without_bad<T>(read: Result<T, LineFail>) -> Result<Option<T>, NoMemory>
    ensures { (meant : Option T) → ReadsAs read meant → IfOk result (λ found. found ≡ meant) }
{
    match read {
        Ok(value) => Ok(Some(value)),
        Err(LineFail::Bad) => Ok(None),
        Err(LineFail::NoMemory) => Err(NoMemory),
    }
}
