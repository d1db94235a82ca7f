//! A peer as the intake that answers each frame.
ghost use Rattle.std.specs.Prelude.{◌≡◌, ℕ, List, ⊤};
ghost use Rattle.line_engine.specs.Engine.{Ran, Reads, StatusCause};
ghost use Rattle.report_text.specs.Closing.{closing_lines};
ghost use Rattle.form_feed.specs.Turn.{frame_turn};
ghost use Rattle.form_feed.specs.Feed.{fed_output, part_from, peer_fed, feed_output, feed_part};

use crate::feeding::feed_intake;
use crate::intake::Intake;
use crate::turn::answer_frame;
use edit_frame::LentFrame;
use edit_io::{Sink, Source};
use element_name::NoMemory;
use line_engine::Status;
use peer_core::Peer;
use report_text::closing_lines_of;
use std::alloc::Global;

impl Intake for Peer {
    ghost turn = { frame_turn };

    ghost closing = { closing_lines };

    fn take_in(
        &mut self,
        _alloc: Global,
        frame: LentFrame<'_>,
        out: &mut Vec<u8>,
    ) -> Result<(), NoMemory> {
        answer_frame(self, frame, out)
    }

    // Appends the text that the peer shows, and what it holds.
    fn close(&mut self, alloc: Global, out: &mut Vec<u8>) -> Result<(), NoMemory> {
        closing_lines_of(alloc, self, out)
    }
}

/// Feeds a stream of frames to a peer, and gives the peer back with the status.
///
/// Each frame is answered as soon as it is whole. A message is received, and what is held and due then is settled. At
/// the end of the stream the text and what is held are written. At a bad frame, or where the stream ends within one,
/// the line that says so ends the run. Of a stream that is longer than [`MAX_INPUT`](line_engine::MAX_INPUT) bytes the
/// frames that end within these are answered.
///
/// It takes the time of the peer's steps and of the frames' bytes, and the memory of the peer, a chunk of input, a frame and
/// the answers to one frame. The peer is the one after the frames that were answered. After a failure of the sink or
/// for want of memory nothing is said of it.
pub fn feed_peer<S: Source, K: Sink>(
    alloc: Global,
    peer: Peer,
    source: &mut S,
    sink: &mut K,
) -> (Peer, Status)
    ensures ran { (input : List ℕ) × (written : List ℕ) ×
        Ran (fed_output peer) (part_from peer) (λ cut bytes. result.0 ≡ peer_fed peer bytes)
        (S.left source.old) (S.left source.new) (K.written sink.old) (K.written sink.new) result.1 input written }
    ensures reads { Reads (S.left source.old) (S.left source.new) }
    ensures read_cause { StatusCause (S.faults source.old) (S.faults source.new) result.1 Status.ReadFault }
    ensures write_cause { StatusCause (K.faults sink.old) (K.faults sink.new) result.1 Status.WriteFault }
{
    feed_intake(alloc, peer, source, sink)
}

/// Feeds a stream of frames to a fresh peer of a site, as [`feed_peer`] does.
pub fn feed<S: Source, K: Sink>(alloc: Global, site: u16, source: &mut S, sink: &mut K) -> Status
    ensures ran { (input : List ℕ) × (written : List ℕ) ×
        Ran (feed_output site) (feed_part site) (λ cut bytes. ⊤)
        (S.left source.old) (S.left source.new) (K.written sink.old) (K.written sink.new) result input written }
    ensures reads { Reads (S.left source.old) (S.left source.new) }
    ensures read_cause { StatusCause (S.faults source.old) (S.faults source.new) result Status.ReadFault }
    ensures write_cause { StatusCause (K.faults sink.old) (K.faults sink.new) result Status.WriteFault }
{
    let Ok(peer) = Peer::new(alloc, site) else {
        return Status::NoMemory;
    };
    let (peer, status) = feed_peer(alloc, peer, source, sink);
    drop(peer);
    status
}
