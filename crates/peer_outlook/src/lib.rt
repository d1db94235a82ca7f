//! What steps would undo at a peer, which stays as it is: a second peer is made of its journal, and makes them.
//!
//! It knows what two peers say of the requests of one journal.
//! It must not know who asks, and how names are told.
#![tactic(auto)]

mod outlook;
mod undone;

pub use outlook::{Outlook, foresee, undone_by};
