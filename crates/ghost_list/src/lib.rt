//! A list that only proofs read.
//!
//! It knows lists, and nothing else.
//! It must not know what any crate keeps in one: it takes no memory, and no code can read it.
#![tactic(auto)]

mod ghost_list;

pub use ghost_list::GhostList;
