//! Why a message isn't held.

use thiserror::Error;

/// Why a message isn't held. The hold is then as it was.
#[derive(Clone, Copy, Debug, PartialEq, Eq, Error)]
pub enum HoldFault {
    /// As many messages are held as may be.
    #[error("the hold is full")]
    Full,
    /// Memory was wanting. No contract says when it is.
    #[error("memory was wanting")]
    NoMemory,
}
