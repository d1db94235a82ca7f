//! Laws of seals.
ghost use Rattle.host_seal.specs.Laws.{FaultLaw, GrowthLaw};

/// No fault is found in a journal just where the seal is that of its first messages. So what was sealed has none by its seal,
/// whatever comes behind it.
pub fn faults()
    ensures fault { FaultLaw }
    ensures growth { GrowthLaw }
{}
