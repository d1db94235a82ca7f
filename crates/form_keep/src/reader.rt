//! The steps of a source's lines, one by one.
ghost use Rattle.std.specs.Prelude.{◌≡◌, ℕ, ◌+◌, ◌<◌, ◌≤◌, List, [], ◌∷◌, ◌++◌, length, take, drop, false};
ghost use Rattle.std.specs.Prelude.{IfOk, IfErr, OnOk, IfSome, IsNone};
ghost use Rattle.std.specs.declared.option.Option.{Option};
ghost use Rattle.line_engine.specs.declared.limits.TheConstants.{MAX_CHUNK, MAX_INPUT};
ghost use Rattle.form_keep.specs.Stopping.{ReadCause};

use crate::stopped::Stopped;
use edit_io::Source;
use element_name::NoMemory;
use line_engine::{MAX_CHUNK, MAX_INPUT, drop_prefix, fetch, find_line_end, wanted};
use line_read::step_line;
use line_spelling::{LineFail, MAX_LINE};
use peer_step::Step;
use std::alloc::Global;

/// The step lines of a source, of which one after another is read.
#[derive(Drop)]
pub(crate) struct StepReader {
    // Bytes that were read. Those before `at` are of lines whose steps were given.
    held: Vec<u8>,
    at: usize,
    // How many bytes were read that count.
    count: usize,
    // Whether the source was read to its end.
    ended: bool,
    // The number of the next line.
    number: u64,
    buf: Vec<u8>,
    ghost within: { at ≤ length held.items },
    ghost few: { count ≤ MAX_INPUT },
    ghost numbered: { number + length held.items ≤ count + 1 + at },
    ghost room: { length buf.items ≡ MAX_CHUNK },
}

impl StepReader {
    ghost use Rattle.form_keep.specs.Reader.{unread, to_pass, IsLine, RefillStops, StepsRead, StaysRead, ReadsStep, EndsSteps, StopsSteps};
    ghost use Rattle.line_input.specs.declared.reading.InputEnd.{InputEnd};

    /// A reader of a source that wasn't read yet.
    pub(crate) fn new(alloc: Global) -> Result<StepReader, NoMemory>
        ensures { IfOk result (λ reader. (left : Option (List ℕ)) → StepsRead left left reader []) }
    {
        let Ok(buf) = vec![in alloc; 0u8; MAX_CHUNK] else {
            return Err(NoMemory);
        };
        Ok(StepReader {
            held: Vec::new(alloc),
            at: 0,
            count: 0,
            ended: false,
            number: 1,
            buf,
        })
    }

    // Takes a chunk that was read.
    fn hold(&mut self, n: usize) -> Result<(), NoMemory>
        requires fits { n ≤ MAX_CHUNK }
        requires few { self.old.count + n ≤ MAX_INPUT }
        ensures ok { OnOk result (unread self.new ≡ unread self.old ++ take n self.old.buf.items) }
        ensures count { OnOk result (self.new.count ≡ self.old.count + n) }
        ensures number { self.new.number ≡ self.old.number }
        ensures ended { self.new.ended ≡ self.old.ended }
    {
        drop_prefix(&mut self.held, self.at);
        self.at = 0;
        self.held.extend_from_slice(&self.buf[..n])?;
        self.count += n;
        Ok(())
    }

    // Reads the next bytes, or finds that there are none.
    fn refill<S: Source>(&mut self, source: &mut S) -> Result<(), Stopped>
        requires { self.old.ended ≡ false }
        ensures read { OnOk result (StaysRead (S.left source.old) (S.left source.new) self.old self.new) }
        ensures budget { OnOk result (to_pass self.new ≡ to_pass self.old) }
        ensures more { OnOk result (self.new.ended ≡ false → self.old.count < self.new.count) }
        ensures stops { IfErr result (λ stopped. RefillStops stopped self.old.count (S.left source.old) (S.left source.new)) }
        ensures cause { ReadCause (S.faults source.old) (S.faults source.new) result }
    {
        let want = wanted(self.count);
        let Ok(n) = fetch(source, &mut self.buf, want) else {
            return Err(Stopped::ReadFault);
        };
        if n == 0 {
            self.ended = true;
            return Ok(());
        }
        if self.count == MAX_INPUT {
            return Err(Stopped::TooLong);
        }
        self.hold(n)?;
        Ok(())
    }

    // How long the next line is. What is too long for one counts as one, and what is left at the end.
    fn line_len<S: Source>(&mut self, source: &mut S) -> Result<usize, Stopped>
        ensures line { IfOk result (λ len. IsLine self.new len) }
        ensures read { OnOk result (StaysRead (S.left source.old) (S.left source.new) self.old self.new) }
        ensures budget { OnOk result (to_pass self.new ≡ to_pass self.old) }
        ensures stops { IfErr result (StopsSteps (S.left source.old) (S.left source.new) self.old) }
        ensures cause { ReadCause (S.faults source.old) (S.faults source.new) result }
    {
        'chunks: loop {
            let rest = &self.held[self.at..];
            if let Some(len) = find_line_end(rest) {
                return Ok(len);
            }
            let len = rest.len();
            if self.ended || len > MAX_LINE {
                return Ok(len);
            }
            self.refill(source)?;
        }
    }

    // Goes behind a line of this length.
    fn pass(&mut self, len: usize)
        requires some { 0 < length (unread self.old) }
        requires within { len ≤ length (unread self.old) }
        ensures unread { unread self.new ≡ drop (len + 1) (unread self.old) }
        ensures number { self.new.number ≡ self.old.number + 1 }
        ensures count { self.new.count ≡ self.old.count }
        ensures ended { self.new.ended ≡ self.old.ended }
    {
        self.at = self.held.len().min(self.at + len + 1);
        self.number += 1;
    }

    /// The step of the next line; none at the end.
    pub(crate) fn next_step<S: Source>(
        &mut self,
        alloc: Global,
        source: &mut S,
    ) -> Result<Option<Step>, Stopped>
        ensures some { IfOk result (λ found. IfSome found (ReadsStep (S.left source.old) (S.left source.new) self.old self.new)) }
        ensures smaller { IfOk result (λ found. IfSome found (λ step. to_pass self.new < to_pass self.old)) }
        ensures none { IfOk result (λ found. IsNone found → EndsSteps (S.left source.old) (S.left source.new) self.old InputEnd.Whole) }
        ensures stops { IfErr result (StopsSteps (S.left source.old) (S.left source.new) self.old) }
        ensures cause { ReadCause (S.faults source.old) (S.faults source.new) result }
    {
        let len = self.line_len(source)?;
        if self.at == self.held.len() {
            return Ok(None);
        }
        match step_line(alloc, &self.held[self.at..self.at + len]) {
            Ok(step) => {
                self.pass(len);
                Ok(Some(step))
            }
            Err(LineFail::Bad) => Err(Stopped::BadLine(self.number)),
            Err(LineFail::NoMemory) => Err(Stopped::NoMemory),
        }
    }
}
