//! Frames, the bytes in which messages travel.
//!
//! It knows the bytes of a frame, and where in a stream one ends.
//! It must not know links and peers, and whether a message is taken.
#![tactic(auto)]

mod decoding;
mod fail;
mod frame;
mod item;
pub mod laws;
mod lent_frame;
mod limits;
mod numbers;
mod reading;
mod splitter;
mod writing;

pub use decoding::{decode, decode_lent};
pub use fail::FrameFail;
pub use frame::{DecodeFail, Frame, FrameFault, FrameKind};
pub use lent_frame::LentFrame;
pub use limits::{MAX_LENGTH, MIN_LENGTH};
pub use splitter::{Splitter, first_frame};
pub use writing::encode;
