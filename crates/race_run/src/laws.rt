//! What the form writes, case by case. The function does nothing: it stands for its statement.
ghost use Rattle.race_run.specs.Laws.{AloneLaw};

/// The report stands alone in what is written of an input, or the line that says which line is bad, or that the input
/// is too long.
pub fn alone()
    ensures { AloneLaw }
{
    crate::silence_laws::silence();
}
