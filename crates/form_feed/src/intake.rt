//! What takes the frames of a stream in.
ghost use Rattle.std.specs.Prelude.{◌≡◌, ℕ, ◌++◌, List, OnOk};
ghost use Rattle.edit_frame.specs.declared.frame.Frame.{Frame};
ghost use Rattle.edit_frame.specs.Lent.{frame_lent};
ghost use Rattle.form_feed.specs.Stream.{FrameTurn};

use edit_frame::LentFrame;
use element_name::NoMemory;
use std::alloc::Global;

/// What takes the frames of a stream in.
///
/// After an answer for want of memory it is to be used no more.
pub trait Intake {
    // What is written of a frame, and the intake after it.
    ghost turn: { Self → Frame → FrameTurn Self };

    // What is written at the end of the stream.
    ghost closing: { Self → List ℕ };

    /// Takes a frame in, and appends what is written of it.
    fn take_in(
        &mut self,
        alloc: Global,
        frame: LentFrame<'_>,
        out: &mut Vec<u8>,
    ) -> Result<(), NoMemory>
        ensures reply { OnOk result (out.new.items ≡ out.old.items ++ (turn self.old (frame_lent frame.entry)).reply) }
        ensures after { OnOk result (self.new ≡ (turn self.old (frame_lent frame.entry)).after) };

    /// Appends what is written at the end of the stream.
    fn close(&mut self, alloc: Global, out: &mut Vec<u8>) -> Result<(), NoMemory>
        ensures lines { OnOk result (out.new.items ≡ out.old.items ++ closing self.old) }
        ensures stays { OnOk result (self.new ≡ self.old) };
}
