//! What a follower and the program beside it say to one another, line by line, and what it and the host do.
//!
//! It knows lines and rows, a follower, and the text that shows. It must not know a socket, a stream, a clock or a file.
#![tactic(auto)]

mod coming;
mod host_text;
mod input_row;
pub mod laws;
mod mirror;
mod output_row;
mod rules;
mod sending;
mod stop;
mod talk;
mod writing;

pub use host_text::{HostText, Welcome, read_host_text};
pub use input_row::MAX_ROW;
pub use stop::Stop;
pub use talk::Talk;
