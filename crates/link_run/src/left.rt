//! What is left of a peer that was run over links.

use crate::own::OwnEnd;
use peer_core::Peer;
use peer_lock::History;
use session_core::SessionFault;

/// The peer, its run, and how all that took part in it ended.
#[derive(Drop)]
pub struct LinkRun {
    /// The peer after the run.
    pub peer: Peer,
    /// The run of all steps.
    pub history: History,
    /// How the caller's own steps ended; none where none was made, since the door failed before.
    pub own: Option<OwnEnd>,
    /// Whether the door failed where it was to listen, to accept or to connect.
    pub door_failed: bool,
    /// How the session on each link that the door gave ended, in order; none where there was no session.
    pub links: Vec<Option<Result<u32, SessionFault>>>,
}
