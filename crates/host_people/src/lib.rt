//! The people of a host, kept in a file: persons with their roles, the invitations that were made for them, their devices.
//!
//! People are seen as the changes that made them, and the file as the same changes. It knows digests of secrets and no
//! secret, and it knows no document, no link and no clock.
#![tactic(auto)]

mod body;
mod book;
mod change;
mod fault;
mod kinds;
mod people;

pub use body::{body_of, read_change};
pub use book::Book;
pub use change::{Change, Digest, SECRET_BYTES, Secret, role_of_word, role_word};
pub use fault::BookFault;
pub use people::{Holder, People};
