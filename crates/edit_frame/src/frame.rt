//! Frames, and why bytes are none.

use coop_request::RequestFault;
use edit_message::Message;

/// What a peer sends to another, one at a time.
#[derive(Drop)]
pub enum Frame {
    /// A message.
    Item(Message),
    /// It is the other side's turn.
    Turn,
    /// Nothing more comes.
    End,
}

/// Why bytes are no frame. Of several reasons the first is told: that the length field isn't whole, `BadLength`,
/// that the frame isn't whole, and then `BadKind`, `BadField`, `LeftOver` and `BadRequest`.
#[derive(Clone, Copy, Debug, PartialEq, Eq)]
pub enum FrameKind {
    /// The length field is below [`crate::MIN_LENGTH`] or above [`crate::MAX_LENGTH`].
    BadLength,
    /// There is no such frame version, or it has no such kind.
    BadKind,
    /// Of the fields in their order, one isn't whole within the frame or has a value that isn't allowed.
    BadField,
    /// Bytes stand after the last field, or after the frame where it is to be all of the bytes.
    LeftOver,
    /// The bytes end before the length field or the frame is whole.
    Truncated,
    /// The fields are those of a request, and there is no such request.
    BadRequest(RequestFault),
}

/// A fault, and where the frame begins that has it.
#[derive(Clone, Copy, Debug, PartialEq, Eq)]
pub struct FrameFault {
    /// The place of the frame's first byte in the stream, from 0.
    pub offset: u64,
    pub kind: FrameKind,
}

/// Why no frame was given.
#[derive(Clone, Copy, Debug, PartialEq, Eq)]
pub enum DecodeFail {
    /// The bytes are no frame.
    Fault(FrameFault),
    /// Memory was wanting. No contract says when it is.
    NoMemory,
}
