//! What a worker of a link works on.

use peer_lock::Pass;
use session_core::SessionFault;

/// A pass and a link, and how the session on it ended, once it did.
#[derive(Drop)]
pub(crate) struct Job<L> {
    pub(crate) pass: Pass,
    pub(crate) link: L,
    pub(crate) outcome: Option<Result<u32, SessionFault>>,
}
