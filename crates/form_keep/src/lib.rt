//! Keeps a peer in a file: each step is put, and answered as soon as it stands.
//!
//! It knows lines of steps, and a peer that is kept in a file.
//! It must not know threads and links, and which disk it is.
#![tactic(auto)]

mod answering;
mod keeping;
pub mod laws;
mod opening;
mod reader;
mod stopped;

pub use keeping::keep;
