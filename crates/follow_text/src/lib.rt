//! A shown text by its letters, for a program that knows no pieces: where its letters stand in the pieces, which pieces
//! a range of letters takes, and what becomes of a range that was meant for an earlier text.
//!
//! A letter is a scalar value. It knows pieces and their bytes. It must not know a peer, a link or a line.
#![tactic(auto)]

mod join;
pub mod laws;
mod letters;
mod piece_cut;
mod shown;
mod span;
mod text_row;
mod tracked;

pub use letters::{letter_count, letter_place};
pub use piece_cut::CutFail;
pub use shown::{Changed, Replacement, Shown};
pub use span::{Carried, Span};
pub use text_row::{TextRow, difference};
pub use tracked::Tracked;
