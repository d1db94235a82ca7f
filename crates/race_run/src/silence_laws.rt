//! What reading an input comes to. The functions do nothing: each stands for its statement.
ghost use Rattle.race_run.specs.SilenceLaws.{SilentLaw, SilentFaultLaw};

/// Nothing is written of an input but the line that ends its reading.
pub fn silence()
    ensures outputs { SilentLaw }
    ensures parts { SilentFaultLaw }
{}
