//! Reading steps, messages and operations, by their words, and the lines of steps.
//!
//! A call that takes memory fails where it is wanting.
//!
//! It knows the words of one line.
//! It must not know worlds of peers, and what a step does.
#![tactic(auto)]

mod fail;
mod item;
pub mod laws;
mod message;
mod numbers;
mod operation;
mod pieces;
mod sets;
mod step;
mod words;

pub use message::read_message;
pub use numbers::{MAX_WIDE, read_name, read_number, read_wide};
pub use operation::read_operation;
pub use step::{read_lent_edit, read_local_edit, step_line};
pub use words::{MOST_WORDS, is_alone, is_line, split_words, words_of};
