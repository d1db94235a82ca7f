//! Retroactive undo: what one new version of the policy makes of the requests that were accepted before it.
//!
//! It knows the requests that wait for their validation, one new version, and whom it reaches.
//! It must not know how the log came by that version, and who steps.
#![tactic(auto)]

mod judge;
mod listing;
mod sweep;
mod walk;

pub use listing::{Taken, list_reach};
pub use sweep::sweep_reach;
pub use walk::{Whose, below_all};
