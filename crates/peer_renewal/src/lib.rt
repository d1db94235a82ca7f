//! A peer made anew: a fresh one of the administrator's with the text of another and its rules, in few requests and entries.
//!
//! It knows what a peer shows, its policy, and which objects cover what.
//! It must not know where a peer is kept, and what becomes of the old one.
#![tactic(auto)]

mod bits;
mod breaks;
mod coverage;
mod cutting;
mod extents;
mod fail;
pub mod laws;
mod likeness;
mod operations;
mod renewing;
mod writing;

pub use cutting::in_pieces;
pub use fail::RenewFail;
pub use likeness::is_renewal;
pub use renewing::renew;
pub use writing::written;
