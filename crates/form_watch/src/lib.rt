//! The form that watches an input: one thread makes its steps and publishes the text after each, another reads pages and
//! never waits, and then the run and what was read are written.
//!
//! It knows lines of steps, a screen with its reader, and what is written of both.
//! It must not know files and links.
#![tactic(auto)]

mod form;
pub mod laws;
mod limits;
mod lines;
mod reading;
mod telling;
mod watching;
mod writing;

pub use form::watch_form;
pub use limits::MAX_LINES;
