//! The lives of a host, one after another, over both of its files: the people's, to which each change is written before it
//! is answered, and a document's, in which the steps are saved behind that. What a crash leaves of the one fits to what it leaves
//! of the other.
//!
//! It has laws alone. It knows the changes and the events of which they speak, and how a file spells them.
//! It must not know who writes the files, nor a folder, a socket or a line.
#![tactic(auto)]

pub mod laws;
