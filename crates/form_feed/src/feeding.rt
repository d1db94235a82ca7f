//! The form that feeds a stream to an intake.
ghost use Rattle.std.specs.Prelude.{◌≡◌, ℕ, ◌+◌, List, [], length, IfOk};
ghost use Rattle.line_engine.specs.Engine.{Ran, Reads, StatusCause};
ghost use Rattle.line_engine.specs.Form.{Rests};
ghost use Rattle.form_feed.specs.Stream.{stream_output, stream_part, stream_after};
ghost use Rattle.form_feed.specs.Form.{feed_meaning};
ghost use Rattle.form_feed.specs.First.{TakesFirst};

use crate::intake::Intake;
use edit_frame::{DecodeFail, Splitter};
use edit_io::{Sink, Source};
use element_name::NoMemory;
use line_engine::{Form, Next, Status, run};
use report_text::frame_fault_line;
use std::alloc::{AllocError, Global};

/// An intake, and the bytes of the stream that it hasn't taken in yet.
#[derive(Drop)]
struct Feeding<T> {
    intake: T,
    splitter: Splitter,
}

/// What became of the first frame of the bytes that are held.
enum First {
    /// It was taken in, and has so many bytes.
    Taken(usize),
    /// Its bytes aren't all there yet.
    Waiting,
    /// It is bad.
    Bad,
}

// Takes in the first frame of the bytes that are held, where it lies.
fn take_first<T: Intake>(
    alloc: Global,
    splitter: &Splitter,
    intake: &mut T,
    out: &mut Vec<u8>,
) -> Result<First, NoMemory>
    requires { out.old.items ≡ [] }
    ensures { IfOk result (λ first. TakesFirst T.turn splitter.now intake.old first intake.new out.new.items) }
{
    let mut room = [0; 4];
    match splitter.first_lent(&mut room) {
        Ok(Some((frame, len))) => {
            intake.take_in(alloc, frame, out)?;
            Ok(First::Taken(len))
        }
        Ok(None) => Ok(First::Waiting),
        Err(DecodeFail::NoMemory) => Err(NoMemory),
        Err(DecodeFail::Fault(fault)) => {
            frame_fault_line(alloc, fault, out)?;
            Ok(First::Bad)
        }
    }
}

impl<T: Intake> Form for Feeding<T> {
    ghost meaning = { feed_meaning T.turn T.closing };

    ghost held = { λ f. length f.splitter.rest };

    ghost load = { λ f. f.splitter.offset + length f.splitter.rest };

    fn feed(&mut self, _alloc: Global, chunk: &[u8]) -> Result<(), AllocError> {
        self.splitter.feed(chunk).or(Err(AllocError))
    }

    fn next(&mut self, alloc: Global, out: &mut Vec<u8>) -> Result<Next, AllocError> {
        match take_first(alloc, &self.splitter, &mut self.intake, out) {
            Ok(First::Taken(len)) => {
                self.splitter.pass(len);
                Ok(Next::Answered)
            }
            Ok(First::Waiting) => Ok(Next::Waiting),
            Ok(First::Bad) => Ok(Next::Bad),
            Err(NoMemory) => Err(AllocError),
        }
    }

    fn end(&mut self, alloc: Global, cut: bool, out: &mut Vec<u8>) -> Result<Status, AllocError> {
        if cut {
            out.extend_from_slice(b"too long\n")?;
            return Ok(Status::TooLong);
        }
        if let Err(fault) = self.splitter.finish() {
            frame_fault_line(alloc, fault, out).or(Err(AllocError))?;
            return Ok(Status::BadInput);
        }
        self.intake.close(alloc, out).or(Err(AllocError))?;
        Ok(Status::Done)
    }
}

impl<T: Intake> Feeding<T> {
    fn new(alloc: Global, intake: T) -> Feeding<T>
        ensures value { result ≡ record { intake = intake; splitter = record { offset = 0; rest = [] } } }
        ensures rests { Rests (feed_meaning T.turn T.closing) result }
    {
        Feeding {
            intake,
            splitter: Splitter::new(alloc),
        }
    }

    fn into_intake(self) -> T
        ensures { result ≡ self.intake }
    {
        let Feeding { intake, .. } = self;
        intake
    }
}

/// Feeds a stream of frames to an intake, and gives the intake back with the status.
///
/// Each frame is taken in as soon as it is whole. At the end of the stream the intake closes. At a bad frame, or where
/// the stream ends within one, the line that says so ends the run. Of a stream that is longer than
/// [`MAX_INPUT`](line_engine::MAX_INPUT) bytes the frames that end within these are taken in.
///
/// It takes the time of the intake and of the frames' bytes, and the memory of the intake, a chunk of input, a frame and
/// what is written of one frame. The intake is the one after the frames that were taken in. After a failure of the sink
/// or for want of memory nothing is said of it.
pub fn feed_intake<T: Intake, S: Source, K: Sink>(
    alloc: Global,
    intake: T,
    source: &mut S,
    sink: &mut K,
) -> (T, Status)
    ensures ran { (input : List ℕ) × (written : List ℕ) ×
        Ran (stream_output T.turn T.closing intake) (stream_part T.turn intake) (λ cut bytes. result.0 ≡ stream_after T.turn intake bytes)
        (S.left source.old) (S.left source.new) (K.written sink.old) (K.written sink.new) result.1 input written }
    ensures reads { Reads (S.left source.old) (S.left source.new) }
    ensures read_cause { StatusCause (S.faults source.old) (S.faults source.new) result.1 Status.ReadFault }
    ensures write_cause { StatusCause (K.faults sink.old) (K.faults sink.new) result.1 Status.WriteFault }
{
    let mut form = Feeding::new(alloc, intake);
    let status = run(alloc, &mut form, source, sink);
    (form.into_intake(), status)
}
