//! A device's peer that follows a host: what it makes is saved, and goes to the host once it is.
//!
//! Contracts see a follower as the list of what has happened at it, the newest first. It knows its peer by a trait, and
//! what of the journal it has passed on a link. It must not know the link itself, lines, a clock or a file.
#![tactic(auto)]

mod event;
mod follower;
pub mod laws;
mod outbox;

pub use event::{FollowEvent, Stretch};
pub use follower::Follower;
pub use outbox::Outbox;
