//! A document of a host: closed as long as nobody is there, and else the host of its text, with its rules and the people of
//! whom that was told.
//!
//! It keeps the contracts of `host_interface`, by which alone a house knows it, and sees a document that is open as what has
//! happened at its host, the newest first. It knows one file of steps and its seal, people, and what links ask for. It must
//! not know the folder, other documents, sockets and clocks.
#![tactic(auto)]

mod document;
mod endings;
pub mod laws;
mod opened;
mod renewal;
mod row;
mod rules;
mod text;

pub use document::Document;
pub use row::MAX_ROW;
