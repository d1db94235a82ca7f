//! The peer of a host, or of a device that follows one, in a store: its steps are made in memory, and saved all at once.
//! It ties the trait of `host_core` to what a crash leaves of a file of records. It knows nothing of links or people.
#![tactic(auto)]

mod kept;

pub use kept::StoreKeeper;
