//! The seal of a journal: how many of its messages it is of, and the digest of their frames. Whoever opens the journal again
//! sees by it whether these still stand there, whole and in order.
//!
//! It knows journals, frames and digests. It must not know files, and when a journal is sealed.
#![tactic(auto)]

pub mod laws;
mod seal;
mod sealer;

pub use seal::{SEAL_BYTES, Seal, SealFault};
pub use sealer::Sealer;
