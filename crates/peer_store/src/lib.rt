//! A peer that is kept in a file: the steps that changed it, each in a record of its own.
//!
//! A store of a site is a file of records, which stands for steps: replayed from the fresh peer of the site, each
//! changes it. A record has a step as bytes, its body. So a peer is there again when its file is opened. A crash at any moment while a step is put leaves
//! the steps from before it, with that step or without.
//!
//! A host with many steps makes each in memory, and then saves all of them at once, by two syncs: a crash at any
//! moment of that leaves all of them or none. It sends what comes of them once they are saved.
//!
//! It knows one peer, its steps as bytes, one disk, and how many of its steps no crash takes away.
//! It must not know lines and links, and who makes the steps.
#![tactic(auto)]

mod body;
mod fault;
pub mod laws;
mod limits;
mod making;
mod replay;
mod spelled;
mod stepped;
mod store;

pub use fault::StoreFault;
pub use limits::MAX_GATE;
pub use store::Store;
