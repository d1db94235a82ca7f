//! Frames of a stream that comes in chunks.
ghost use Rattle.std.specs.Prelude.{◌≡◌, ℕ, ◌+◌, ◌^◌, ◌<◌, ◌≤◌, List, [], ◌++◌, length, OnOk, OnErr, MatchResult};
ghost use Rattle.edit_frame.specs.declared.frame.Frame.{Frame};
ghost use Rattle.edit_frame.specs.declared.frame.FrameKind.TheVariants.{Truncated};
ghost use Rattle.edit_frame.specs.Splitter.{NextGives, IsSplit, IsWaiting, GivesNextFrame, FirstGives, Shortens, is_truncated, FirstLent, IsLentWithin, answer_lent, past_answer, past_bytes};

use crate::decoding::{cut_fault, length_of, whole_lent};
use crate::fail::FrameFail;
use crate::frame::{DecodeFail, Frame, FrameFault, FrameKind};
use crate::lent_frame::LentFrame;
use crate::limits::LENGTH_BYTES;
use bytes::{Buf, BytesMut};
use element_name::NoMemory;
use std::alloc::Global;
use std::marker::Model;

/// Takes a stream apart, which comes in chunks, into frames.
///
/// It keeps the bytes from the first frame on that wasn't given yet, and is seen as these and the place where they
/// begin. Nothing else is kept of a fault: it is the first frame's, so that it is told again.
#[derive(Drop)]
pub struct Splitter {
    alloc: Global,
    buffer: BytesMut,
    offset: u64,
}

impl Model for Splitter {
    ghost use Rattle.std.specs.Prelude.{◌+◌, ◌^◌, ◌<◌, length};
    ghost use Rattle.edit_frame.specs.Splitter as spec;

    ghost Value = { spec.Splitter };

    ghost view = { λ s. record { offset = s.offset; rest = s.buffer.items } };

    ghost invariant = { λ s. s.offset + length s.buffer.items < 2 ^ 64 };
}

impl Splitter {
    /// Nothing was fed yet. Takes no memory.
    pub fn new(alloc: Global) -> Splitter
        ensures value { result ≡ record { offset = 0; rest = [] } }
        ensures waiting { IsWaiting result }
        ensures split { IsSplit [] [] result }
    {
        Splitter {
            alloc,
            buffer: BytesMut::new(alloc),
            offset: 0,
        }
    }

    /// Takes the next chunk of the stream, in time in its length but for the times when room is made.
    pub fn feed(&mut self, piece: &[u8]) -> Result<(), NoMemory>
        requires { self.old.offset + length self.old.rest + length piece.now < 2 ^ 64 }
        ensures ok { OnOk result (self.new ≡ record { offset = self.old.offset; rest = self.old.rest ++ piece.now }) }
        ensures err { OnErr result (self.new ≡ self.old) }
        ensures split { OnOk result ((fed : List ℕ) (frames : List Frame)
            → IsSplit fed frames self.old → IsSplit (fed ++ piece.now) frames self.new) }
    {
        self.buffer.extend_from_slice(piece)?;
        Ok(())
    }

    /// The next frame of what was fed; none where its bytes aren't all there yet. A fault is told again.
    ///
    /// Takes time in the frame's length, and memory for the lists of an authorization and of an object's
    /// elements alone.
    pub fn next_frame(&mut self) -> Result<Option<Frame>, DecodeFail>
        ensures exact { NextGives self.old result self.new }
        ensures counted { self.new.offset + length self.new.rest ≡ self.old.offset + length self.old.rest }
        ensures shortens { Shortens self.old result self.new }
        ensures follows { (fed : List ℕ) (frames : List Frame)
            → IsSplit fed frames self.old → GivesNextFrame fed frames result self.new }
    {
        let mut room = [0; 4];
        let (frame, len) = match self.first_lent(&mut room) {
            Ok(Some((frame, len))) => (frame.frame(), len),
            Ok(None) => return Ok(None),
            Err(fail) => return Err(fail),
        };
        self.pass(len);
        Ok(Some(frame))
    }

    /// The first frame of what was fed, lent, with its length in bytes; none where its bytes aren't all there yet. With
    /// [`pass`](Splitter::pass) behind it, it is as [`next_frame`](Splitter::next_frame): the clauses are those of that call,
    /// about the splitter behind both.
    ///
    /// The letter of a frame of one scalar value is lent from the room. Takes time and memory as `next_frame`.
    pub fn first_lent<'a>(
        &'a self,
        room: &'a mut [u8; 4],
    ) -> Result<Option<(LentFrame<'a>, usize)>, DecodeFail>
        ensures exact { NextGives self.now (answer_lent result) (past_answer result self.now) }
        ensures within { IsLentWithin self.now.rest result }
        ensures shortens { Shortens self.now (answer_lent result) (past_answer result self.now) }
        ensures follows { (fed : List ℕ) (frames : List Frame)
            → IsSplit fed frames self.now → GivesNextFrame fed frames (answer_lent result) (past_answer result self.now) }
    {
        match first_lent(self.alloc, self.buffer.as_slice(), room) {
            Ok(Some(first)) => Ok(Some(first)),
            Ok(None) => Ok(None),
            Err(FrameFail::NoMemory) => Err(DecodeFail::NoMemory),
            Err(FrameFail::Fault(kind)) => Err(DecodeFail::Fault(FrameFault {
                offset: self.offset,
                kind,
            })),
        }
    }

    /// Goes past so many bytes of what was fed.
    pub fn pass(&mut self, len: usize)
        requires { len ≤ length self.old.rest }
        ensures { self.new ≡ past_bytes len self.old }
    {
        self.buffer.advance(len);
        self.offset += len as u64;
    }

    /// Whether nothing is left of the stream, where it ends. The only fault is Truncated.
    pub fn finish(&self) -> Result<(), FrameFault>
        requires { IsWaiting self.now }
        ensures { MatchResult result (λ _. self.now.rest ≡ [])
            (λ fault. (0 < length self.now.rest) × (fault ≡ record { offset = self.now.offset; kind = Truncated })) }
    {
        if self.buffer.is_empty() {
            return Ok(());
        }
        Err(FrameFault {
            offset: self.offset,
            kind: FrameKind::Truncated,
        })
    }
}

fn is_truncated(kind: FrameKind) -> bool
    ensures { result ≡ is_truncated kind }
{
    matches!(kind, FrameKind::Truncated)
}

// The first frame of a stream's bytes, lent from these and from the room, with its length in bytes; none where its bytes aren't
// all there.
fn first_lent<'a>(
    alloc: Global,
    bytes: &'a [u8],
    room: &'a mut [u8; 4],
) -> Result<Option<(LentFrame<'a>, usize)>, FrameFail>
    ensures { FirstLent bytes.now result }
{
    if let Some(kind) = cut_fault(bytes) {
        if is_truncated(kind) {
            return Ok(None);
        }
        return Err(FrameFail::Fault(kind));
    }
    let len = LENGTH_BYTES + length_of(bytes) as usize;
    let frame = whole_lent(alloc, false, bytes, room)?;
    Ok(Some((frame, len)))
}

/// The first frame of a stream's bytes with its length in bytes; none where its bytes aren't all there. Takes time in the
/// frame's length, and memory for the lists of an authorization and of an object's elements alone.
pub fn first_frame(alloc: Global, bytes: &[u8]) -> Result<Option<(Frame, usize)>, FrameFail>
    ensures { FirstGives bytes.now result }
{
    let mut room = [0; 4];
    match first_lent(alloc, bytes, &mut room)? {
        Some((frame, len)) => Ok(Some((frame.frame(), len))),
        None => Ok(None),
    }
}
