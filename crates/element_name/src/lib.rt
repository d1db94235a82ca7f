//! Names of requests and elements, and the places of elements in text order.
//!
//! It knows stamps, sites and versions with their limits, and where a sequence has which name.
//! It must not know what an element shows, who wrote it, or how a name is spelled.
#![tactic(auto)]

pub mod laws;
mod limits;
mod name;
mod no_memory;
mod places;

pub use limits::{MAX_STAMP, MAX_VERSION};
pub use name::Name;
pub use no_memory::NoMemory;
pub use places::Places;
