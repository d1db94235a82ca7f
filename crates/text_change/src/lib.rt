//! What a step changed in the shown text, told as rows.
//!
//! It knows a journal before and after a step, and what it shows.
//! It must not know how a row is spelled, and who reads it.
#![tactic(auto)]

mod ahead;
mod row;
mod seen;
mod told;

pub use ahead::Ahead;
pub use told::{Told, step_told};
