//! The rule of the table, and the names of its steps.
ghost use Rattle.peer_lock.specs.Rule.{IsOneRun, newcomer, spent, united, dealt, grabbed, looked, counted, freed};

use crate::recorder::Recorder;
use crate::view::View;
use atomic_table::{Join, Play, Split, TableRule};

/// The gate word, the count word and the slot agree with all views on one run. The key is the site.
pub struct OneRun;

impl TableRule<Recorder, View, u16> for OneRun {
    ghost holds = { λ site. IsOneRun site };

    ghost first = { λ site. newcomer 0 1 site };
}

/// A try to take the gate, with the slot.
pub struct Grab;

impl Play<Recorder, View> for Grab {
    ghost then = { grabbed };
}

/// A load of the count.
pub struct Look;

impl Play<Recorder, View> for Look {
    ghost then = { looked };
}

/// One more step is counted.
pub struct Count;

impl Play<Recorder, View> for Count {
    ghost then = { counted };
}

/// The slot goes home, and the gate is free.
pub struct Free;

impl Play<Recorder, View> for Free {
    ghost then = { freed };
}

/// One more pass is dealt.
pub struct Deal;

impl Split<View> for Deal {
    ghost left = { dealt };

    ghost right = { λ v. newcomer v.made 0 v.origin };
}

/// One pass is joined into another.
pub struct Unite;

impl Join<View> for Unite {
    ghost both = { united };

    ghost spent = { spent };
}
