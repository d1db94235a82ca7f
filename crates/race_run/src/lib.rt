//! The form that races the steps of an input: the lists of three workers are read, the workers run them on threads of
//! their own over one shared peer, and the run is reported.
//!
//! It knows lines of steps with their workers, a peer that is shared, and the report of its run.
//! It must not know files and links.
#![tactic(auto)]

mod form;
mod gate;
pub mod laws;
mod lists;
mod racing;
pub mod silence_laws;
mod worker;
mod working;

pub use form::race_form;
pub use gate::{FreeGate, Gate};
pub use lists::{WorkLists, read_lists};
pub use racing::race;
pub use worker::{Worker, worker_of};
