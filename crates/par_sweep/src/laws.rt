//! Laws of verdicts that are taken early.
ghost use Rattle.par_sweep.specs.Laws.{EarlyVerdictLaw, SettingLaw};

/// The verdict on a request doesn't depend on which requests were undone before, so those that are taken before the
/// first change are those that are taken one by one.
pub fn early_verdicts()
    ensures same { EarlyVerdictLaw }
    ensures setting { SettingLaw }
{}
