//! Writing the texts of steps and messages, and the lines of answers.
//!
//! A call fails where memory is wanting, and has then appended nothing, if it doesn't say otherwise.
//!
//! It knows steps, messages and answers as values, and the words for each.
//! It must not know who made them, and which lines follow each other.
#![tactic(auto)]

mod answer;
mod parts;
mod steps;
mod values;

pub use answer::{
    answer_line, put_answer_line, put_edit_answer, put_edit_answer_line, put_request_answer_line,
    put_with_fault, put_with_state,
};
pub use parts::{put_fault, put_missing, put_outcome, put_shown, put_state, put_undone};
pub use steps::{message_text, step_text};
pub use values::{put, put_name_word, put_number_word};
