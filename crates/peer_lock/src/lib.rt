//! One peer shared by threads. Each call that steps it takes the gate, makes one step, counts it and frees the gate.
//!
//! What contracts say of runs and passes they say by `Call` and `View`. Neither is exported: the contracts of callers name them
//! by their modules of `specs/`, no function gives a `Call`, and no value of `View` is made.
//!
//! It knows one peer, its gate, and the run of its steps.
//! It must not know where steps come from: lines, links, or a screen.
#![tactic(auto)]

mod boxed_message;
mod call;
mod dealing;
mod fail;
mod history;
mod kept_answer;
pub mod laws;
mod limits;
mod lock_table;
mod many_threads;
mod pass;
mod recorder;
mod rule;
mod shared_peer;
mod view;
mod wide_step;

pub use boxed_message::BoxedMessage;
pub use fail::{StepFail, TryFail};
pub use history::History;
pub use kept_answer::KeptAnswer;
pub use limits::{MAX_PASSES, MAX_RUN};
pub use pass::Pass;
pub use shared_peer::SharedPeer;
pub use wide_step::step_wide;
