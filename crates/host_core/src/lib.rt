//! A host of a shared text, as what has happened at it: who may ask for what, what is saved, and what each link is
//! given. Contracts see a host as the list of its events, the newest first, and each call adds one or refuses.
//!
//! It knows people by numbers and digests, and its peer by a trait. It knows no sockets, no clock, no randomness and
//! no file, and not how people or documents are called.
#![tactic(auto)]

mod digest;
mod door;
mod event;
mod host;
mod keeper;
pub mod laws;
mod limits;
mod refusal;
mod register;

pub use digest::same_bytes;
pub use event::{Device, Hello, HostEvent, LinkId, OpenLink, Role};
pub use host::Host;
pub use keeper::{KeepFail, Keeper};
pub use limits::{LINK_REQUESTS, MAX_DENIED, MAX_OPENED, MAX_PEOPLE, MAX_SITES};
pub use refusal::Refusal;
pub use register::Register;
