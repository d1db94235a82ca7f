//! What a house asks of a document: its calls with their contracts, and the words in which these speak.
//!
//! A house and what is above it are written for each type that keeps these contracts, so they know nothing of what a document
//! is made of. It knows people, seals and what links ask for. It must not know files, stores and how a line is read.
#![tactic(auto)]

mod document;
mod fault;

pub use document::HouseDocument;
pub use fault::{NotMade, OpenFault, RowFault};
