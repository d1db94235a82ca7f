//! Frames whose piece is lent.
ghost use Rattle.std.specs.Prelude.{◌≡◌};
ghost use Rattle.edit_frame.specs.Lent.{frame_lent};

use crate::frame::Frame;
use coop_request::LentRequest;
use edit_message::Message;
use policy_book::Entry;

/// A frame whose piece, if it has one, lies elsewhere. `frame_lent` says which frame it is.
#[derive(Drop)]
pub enum LentFrame<'a> {
    /// A request.
    Request(LentRequest<'a>),
    /// An entry of the admin log.
    Entry(Entry),
    /// It is the other side's turn.
    Turn,
    /// Nothing more comes.
    End,
}

impl<'a> LentFrame<'a> {
    /// The same frame with its piece in place.
    pub fn frame(self) -> Frame
        ensures { result ≡ frame_lent self.entry }
    {
        match self {
            LentFrame::Request(request) => Frame::Item(Message::Coop(request.request())),
            LentFrame::Entry(entry) => Frame::Item(Message::Admin(entry)),
            LentFrame::Turn => Frame::Turn,
            LentFrame::End => Frame::End,
        }
    }
}
