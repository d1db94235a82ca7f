//! A frame as the checker keeps it.
ghost use Rattle.std.specs.Prelude.{◌≡◌, IfOk};
ghost use Rattle.audit_cert.specs.KeptFrames.{item_of};
ghost use Rattle.audit_cert.specs.KeptParts.{frame_of_part};

use edit_frame::Frame;
use edit_message::{Message, PackedMessage};
use element_name::NoMemory;
use std::alloc::Global;
use std::marker::Model;

/// A frame, seen as itself, whose message is packed: a request takes some 64 bytes, where a frame takes some 300.
#[derive(Drop)]
pub(crate) struct KeptFrame {
    part: Part,
}

#[derive(Drop)]
enum Part {
    Item(PackedMessage),
    Turn,
    End,
}

impl Model for KeptFrame {
    ghost use Rattle.edit_frame.specs.declared.frame.Frame.{Frame};

    ghost Value = { Frame };

    ghost use Rattle.audit_cert.specs.KeptParts.{frame_of_part};

    ghost view = { λ f. frame_of_part f.part };
}

// How a frame is kept.
fn part_of(alloc: Global, frame: Frame) -> Result<Part, NoMemory>
    ensures { IfOk result (λ part. frame_of_part part ≡ frame) }
{
    match frame {
        Frame::Item(message) => {
            let packed = PackedMessage::of(alloc, message)?;
            Ok(Part::Item(packed))
        }
        Frame::Turn => Ok(Part::Turn),
        Frame::End => Ok(Part::End),
    }
}

impl KeptFrame {
    /// A frame, kept.
    pub(crate) fn of(alloc: Global, frame: Frame) -> Result<KeptFrame, NoMemory>
        ensures { IfOk result (λ kept. kept ≡ frame) }
    {
        Ok(KeptFrame {
            part: part_of(alloc, frame)?,
        })
    }

    /// Its message, if it is one. An entry's lists take memory.
    pub(crate) fn message(&self) -> Result<Option<Message>, NoMemory>
        ensures { IfOk result (λ item. item ≡ item_of self.now) }
    {
        match &self.part {
            Part::Item(message) => {
                let message = message.copied()?;
                Ok(Some(message))
            }
            Part::Turn | Part::End => Ok(None),
        }
    }
}
