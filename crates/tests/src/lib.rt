//! Tests of what no clause says and no row of text reaches: a disk that stops, streams that fail, and public calls that
//! the program doesn't make.
//!
//! They know the public calls of the crates below alone, and no crate stands on them. They stand in a crate of their own,
//! since a crate with tests is proved twice.
#![tactic(auto)]

#[cfg(test)]
mod of_peer_store;
#[cfg(test)]
mod of_records;
#[cfg(test)]
mod of_sequences;
#[cfg(test)]
mod of_sizes;
#[cfg(test)]
mod of_streams;
