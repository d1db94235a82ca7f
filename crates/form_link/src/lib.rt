//! The forms that run a peer over links: `serve` takes links from a door, and `dial` asks it for one.
//!
//! Both read the step lines of a source to the end, make their steps on the peer, and write the report of the run. Behind it
//! stand the lines of the faults that were met: that of the door first, then that of the caller's own steps, and then those
//! of the links by their numbers.
//!
//! It knows lines of steps, a run over links, and its report.
//! It must not know sockets: a door gives it links.
#![tactic(auto)]

mod dialling;
mod fault_telling;
mod faults;
pub mod laws;
mod report;
mod serving;
mod telling;

pub use dialling::dial_form;
pub use fault_telling::{fault_lines, faults_status};
pub use faults::{Fault, faults_of};
pub use report::tell_run;
pub use serving::serve_form;
