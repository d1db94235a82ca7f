//! Reading the step lines of an input into one list, up to where reading ends.
//!
//! It knows a source, and the lines of steps.
//! It must not know what is done with the steps.
#![tactic(auto)]

mod nowhere;
mod reading;

pub use reading::{InputEnd, StepInput, read_steps};
