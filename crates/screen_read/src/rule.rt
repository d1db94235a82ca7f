//! The rule of what a screen shows, and what its steps tell.
ghost use Rattle.std.specs.Prelude.{[]};
ghost use Rattle.screen_read.specs.Rule.{AreOnBoard, SeesBoard};

use crate::shown::Shown;
use atomic_table::{Join, Split};
use crossbeam_utils::rule::{Outcome, Protocol};
use std::collections::LinkedList;

/// All that is shown is of one board. A view is what was seen last, or nothing.
pub struct OneBoard;

impl Protocol<Shown, LinkedList<Shown>> for OneBoard {
    ghost holds = { λ shown. AreOnBoard shown.table };

    ghost first = { [] };
}

/// A reader takes what is shown, or the writer shows something else.
pub struct Sees;

impl Outcome<Shown, LinkedList<Shown>> for Sees {
    ghost then = { SeesBoard };
}

/// The writer tells what it knows.
pub struct Tell;

impl Split<LinkedList<Shown>> for Tell {
    ghost left = { λ v. v };

    ghost right = { λ v. v };
}

/// A new reader knows what it is told.
pub struct Begin;

impl Join<LinkedList<Shown>> for Begin {
    ghost both = { λ v w. w };

    ghost spent = { [] };
}
