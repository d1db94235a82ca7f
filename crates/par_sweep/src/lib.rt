//! Retroactive undo whose verdicts are taken on several threads.
//!
//! It knows the same sweep as `retro_undo`, in parts.
//! It must not know locks and shared peers: its threads end before its call does.
#![tactic(auto)]

mod judging;
pub mod laws;
mod setting;
mod sweep;

pub use sweep::par_sweep;
