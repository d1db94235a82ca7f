//! Feeds a stream of frames to a peer, or to what else takes frames in, each as soon as it is whole.
//!
//! It knows streams of frames, and what takes one in.
//! It must not know scripts, files, links and threads.
#![tactic(auto)]

mod feeding;
mod intake;
pub mod laws;
mod peer_intake;
mod telling;
mod turn;

pub use feeding::feed_intake;
pub use intake::Intake;
pub use peer_intake::{feed, feed_peer};
pub use turn::take_untold;
