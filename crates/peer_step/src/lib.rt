//! The steps of a peer and their answers, and steps in little memory.
//!
//! It knows every step and every answer as values.
//! It must not know how a peer comes by its answer, and how either is spelled.
#![tactic(auto)]

mod answer;
mod lent;
mod packed_step;
mod step;
mod text;

pub use answer::{Answer, Outcome};
pub use lent::{EditAnswer, LentLocalEdit, RequestAnswer};
pub use packed_step::PackedStep;
pub use step::{LocalEdit, Step};
pub use text::Text;
