//! A peer that is run over links: from the caller's own steps and a door to the peer, its run, and how all that took
//! part ended. Many workers run over one shared peer: one with the steps of the caller, and one for each link.
//!
//! It knows a shared peer, sessions, and workers.
//! It must not know lines, and what is written of the run.
#![tactic(auto)]

mod dealing;
mod dialling;
mod ending;
mod job;
mod left;
mod own;
mod run;
mod serving;
mod taking;
mod work;

pub use dialling::{dial, run_alone};
pub use left::LinkRun;
pub use own::OwnEnd;
pub use serving::serve;
