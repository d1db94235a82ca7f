//! What messages come and go over.
ghost use Rattle.std.specs.Prelude.{◌≡◌, ℕ, ◌+◌, List};
ghost use Rattle.std.specs.declared.option.Option.{Option};
ghost use Rattle.edit_io.specs.Causes.{HasOutCause};
ghost use Rattle.edit_io.specs.Link.{with_last, came_by, closes_by, went_by};

use crate::fail::OutFail;

/// A link to another program, over which whole messages come and go.
///
/// A message is any bytes, none among them. After a failure or for want of memory a link over a stream may
/// have lost a message: it is to be given back then, and used no more.
pub trait Link {
    // The messages that came, in their order, where the link tells them.
    ghost got: { Self → Option (List (List ℕ)) };

    // The messages that were sent, in their order, where the link tells them.
    ghost sent: { Self → Option (List (List ℕ)) };

    // How often it has failed.
    ghost faults: { Self → ℕ };

    // How often a call found that the other end had closed.
    ghost closes: { Self → ℕ };

    /// Gives the next message, or none where the other end has closed.
    ///
    /// It may wait for a message. A call that fails gives none. Where the closes can be counted no more it
    /// fails instead.
    fn recv(&mut self) -> Result<Option<Vec<u8>>, OutFail>
        ensures got { got self.new ≡ with_last (got self.old) (came_by result) }
        ensures sent { sent self.new ≡ sent self.old }
        ensures closes { closes self.new ≡ closes self.old + closes_by result }
        ensures cause { HasOutCause (faults self.old) (faults self.new) result };

    /// Sends a message. A call that fails has sent none.
    fn send(&mut self, message: &[u8]) -> Result<(), OutFail>
        ensures got { got self.new ≡ got self.old }
        ensures sent { sent self.new ≡ with_last (sent self.old) (went_by result message.now) }
        ensures closes { closes self.new ≡ closes self.old }
        ensures cause { HasOutCause (faults self.old) (faults self.new) result };
}
