//! A folder of documents with its people: documents that are opened when somebody comes and sealed as they are saved, devices
//! that show secrets, orders of owners.
//!
//! It knows files, people and what it asks of documents, of whatever type they are. It must not know what a document is made of,
//! sockets and clocks.
#![tactic(auto)]

mod chain;
mod done;
mod fault;
mod folder;
mod formers;
mod house;
mod keys;
mod renewal;
mod renewing;
mod seals;
mod shelf;

pub use done::{Consequence, Done};
pub use fault::HouseFault;
pub use host_interface::{HouseDocument, OpenFault};
pub use house::{Admitted, House, Verified};
