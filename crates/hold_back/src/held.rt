//! Held messages.

use crate::need::Need;
use edit_message::Message;

/// A message in the hold.
#[derive(Drop)]
pub struct Held {
    /// The message.
    pub message: Message,
    /// What it waits for; none once it is woken.
    pub need: Option<Need>,
}
