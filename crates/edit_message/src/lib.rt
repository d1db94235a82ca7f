//! What peers send to each other: requests of editors and entries of the administrator; and messages in little memory.
//!
//! It knows requests and entries side by side: when two are one message, and what one misses.
//! It must not know who takes a message in, and its bytes.
#![tactic(auto)]

pub mod laws;
mod message;
mod packed_message;

pub use message::{Key, Message, Missing};
pub use packed_message::PackedMessage;
