//! The report of a run: its steps with their answers, the text after it, and what is held.
//!
//! It knows a run as a list of steps, and the words of each.
//! It must not know whether workers, links or a screen made the run.
#![tactic(auto)]

mod kept;
mod lines;
mod reporting;

pub use reporting::report;
