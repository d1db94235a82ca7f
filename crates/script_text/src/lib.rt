//! Reading the lines of scripts.
//!
//! It knows lines of bytes, and the lines of a world as values.
//! It must not know the world that plays them.
#![tactic(auto)]

pub mod laws;
mod line;
mod own_edit;
mod peers;

pub use line::script_line;
pub use own_edit::{Given, OwnEdit, script_edit, script_give};
