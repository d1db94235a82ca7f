//! What a pass knows. It exists in proofs alone: no value of `View` or `Old` is made.

use crate::call::Call;
use std::collections::LinkedList;

/// One side of a join: what it had seen, and its numbers.
pub struct Old {
    pub seen: LinkedList<Call>,
    pub numbers: LinkedList<u32>,
}

/// What a pass knows of the run, and how often it asked.
pub struct View {
    /// The pass's own number, under which it steps.
    pub number: u32,
    /// The beginning of the run that it has seen.
    pub seen: LinkedList<Call>,
    /// The run has at least so many steps.
    pub floor: u64,
    /// Its own number, and those of the passes that were joined into it.
    pub numbers: LinkedList<u32>,
    /// How often it tried to take the gate.
    pub tries: u64,
    /// How many of its tries found the gate taken.
    pub refused: u64,
    /// How often it loaded the count.
    pub looks: u64,
    /// Whether it has the gate.
    pub hand: bool,
    /// While it has the gate, the run that it found.
    pub base: LinkedList<Call>,
    /// The site that the shared peer was made for.
    pub origin: u16,
    /// How many passes there are, in the first pass and in one that it was joined into; 0 in the others.
    pub made: u32,
    /// The two sides of a join, until the count is loaded.
    pub olds: LinkedList<Old>,
}
