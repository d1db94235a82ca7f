//! Policies: who may do what where, the operations that change them, and whose requests a change may deny.
//!
//! It knows users, groups, objects and authorizations, and when an operation is legal.
//! It must not know the log that an operation comes to, or the edits that it decides on.
#![tactic(auto)]

mod auth;
mod copied;
mod fault;
pub mod laws;
mod limits;
mod lists;
mod numbered;
mod op;
mod parts;
mod policy;
mod ranges;
mod reach;
mod shared;
mod tables;

pub use auth::{Auth, Extent, Rights, UserSet};
pub use fault::{ApplyFault, EntryFault};
pub use limits::{MAX_NAMES, MAX_NUMBERS, MAX_OF_KIND};
pub use lists::{NameList, NumList};
pub use op::{AdminOp, Entry};
pub use parts::{Group, Members, NumberedAuth, Object};
pub use policy::Policy;
pub use reach::{Reach, UserRow};
pub use shared::SharedAuth;
