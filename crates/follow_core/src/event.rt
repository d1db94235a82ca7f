//! What has happened at a follower.

use edit_message::Message;
use peer_core::Peer;
use peer_step::Step;

/// How far the journal was passed on a link: from which place on, and up to which.
#[derive(Clone, Copy, Debug, PartialEq, Eq)]
pub struct Stretch {
    pub from: u32,
    pub mark: u32,
}

/// What has happened. Only proofs see it.
#[derive(Drop)]
pub enum FollowEvent {
    /// The follower began with this peer. The device's own requests below a place of its journal were at the host.
    Began { peer: Peer, back: u32 },
    /// The peer made a step.
    Made { step: Step },
    /// All that the journal has was saved.
    Saved,
    /// The program was told the answers of all steps that were made.
    Told,
    /// The message at a place of the journal, a request of the device's own, came back from the host.
    CameBack { place: u32 },
    /// A link stands, on which the journal is passed from a place on. An older one ends by that.
    Linked { from: u32 },
    /// The next message of the journal was passed: it was sent, if it is a request of the device's own.
    Passed { message: Message },
}
