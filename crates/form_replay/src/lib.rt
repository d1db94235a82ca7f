//! The form that plays a script: its lines are read as they come, played in a world of peers, and answered.
//!
//! It knows scripts, the world that plays them, and the words of its replies.
//! It must not know files, links and threads.
#![tactic(auto)]

pub mod laws;
mod play;
mod reply;
mod run;

pub use play::Replay;
pub use reply::reply_line;
pub use run::replay;
