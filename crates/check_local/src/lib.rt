//! The check of a user's own edit, before it is made: the verdict of the policy that the user's site has.
//!
//! It knows one policy and one edit of its own user.
//! It must not know later versions, and requests of others.
#![tactic(auto)]

mod check;

pub use check::{LocalVerdict, check_local};
