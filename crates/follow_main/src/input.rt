//! The lines of the standard input.
ghost use Rattle.std.specs.Prelude.{◌≡◌, ◌≤◌, ◌+◌, ℕ, [], true, length, drop, take, min, IfSome, IfNone};
ghost use Rattle.follow_main.specs.Lines.{LineEndsAt, HasNoEnd, IsNextLine, HasNoLine, HasTooLongLine};
ghost use Rattle.follow_main.specs.declared.input.NextLine.{NextLine};

use follow_talk::MAX_ROW;
use line_engine::{drop_prefix, find_line_end};
use std::alloc::{AllocError, Global};
use std::io::{self, ErrorKind, Read};

// How many bytes one read takes.
const CHUNK: usize = 65_536;

/// What was read of the standard input, and not taken yet.
#[derive(Drop)]
pub struct Input {
    held: Vec<u8>,
    // The bytes in front of it were taken.
    at: usize,
    buf: Vec<u8>,
    /// Whether it was read to its end.
    pub ended: bool,
    /// The number of the line that is taken next.
    pub number: u64,
    ghost within: { at ≤ length held.items },
}

/// The next line of what was read.
#[derive(Clone, Copy, Debug, PartialEq, Eq)]
pub enum NextLine {
    /// One of so many bytes.
    Line(usize),
    /// A line that is longer than any may be.
    TooLong,
    /// None is whole.
    None,
}

// How many bytes the next line has, if it is whole: the last one may lack its line end.
fn next_size(ended: bool, rest: &[u8]) -> Option<usize>
    ensures within { IfSome result (λ size. size ≤ length rest.now) }
    ensures one { IfSome result (λ size. HasNoEnd size rest.now) }
    ensures ends { IfSome result (λ size. LineEndsAt ended rest.now size) }
    ensures none { IfNone result (HasNoEnd (length rest.now) rest.now) }
    ensures all { IfNone result (ended ≡ true → rest.now ≡ []) }
{
    match find_line_end(rest) {
        Some(size) => Some(size),
        None if ended && !rest.is_empty() => Some(rest.len()),
        None => None,
    }
}

// The next line of bytes that weren't taken.
fn next_of(ended: bool, rest: &[u8]) -> NextLine
    ensures line { (size : ℕ) → result ≡ NextLine.Line size → IsNextLine ended rest.now size }
    ensures long { result ≡ NextLine.TooLong → HasTooLongLine rest.now }
    ensures none { result ≡ NextLine.None → HasNoLine ended rest.now }
{
    match next_size(ended, rest) {
        Some(size) if size <= MAX_ROW => NextLine::Line(size),
        None if rest.len() <= MAX_ROW => NextLine::None,
        _ => NextLine::TooLong,
    }
}

// Puts the first of bytes behind others.
fn put_first(held: &mut Vec<u8>, bytes: &[u8], count: usize) -> Result<(), AllocError> {
    held.extend_from_slice(bytes.get(..count).unwrap_or(&[]))
}

impl Input {
    /// An input of which nothing was read.
    pub fn new(alloc: Global) -> Result<Input, AllocError> {
        Ok(Input {
            held: Vec::new(alloc),
            at: 0,
            buf: vec![in alloc; 0u8; CHUNK]?,
            ended: false,
            number: 1,
        })
    }

    // Keeps bytes that were read behind those that weren't taken.
    fn keep(&mut self, count: usize) -> Result<(), AllocError> {
        drop_prefix(&mut self.held, self.at);
        self.at = 0;
        put_first(&mut self.held, &self.buf, count)
    }

    /// Reads once.
    pub fn read(&mut self, rt: &HostRuntime) -> io::Result<()> {
        match rt.stdin().read(&mut self.buf) {
            Ok(0) => self.ended = true,
            Ok(count) => self.keep(count)?,
            Err(error) if error.kind() == ErrorKind::Interrupted => {}
            Err(error) if error.kind() == ErrorKind::WouldBlock => {}
            Err(error) => return Err(error),
        }
        Ok(())
    }

    // The bytes that weren't taken.
    fn rest(&self) -> &[u8]
        ensures { result.now ≡ drop self.now.at self.now.held.items }
    {
        self.held.get(self.at..).unwrap_or(&[])
    }

    /// The next line. The last one may lack its line end.
    pub fn next_line(&self) -> NextLine
        ensures line { (size : ℕ) → result ≡ NextLine.Line size → IsNextLine self.now.ended (drop self.now.at self.now.held.items) size }
        ensures long { result ≡ NextLine.TooLong → HasTooLongLine (drop self.now.at self.now.held.items) }
        ensures none { result ≡ NextLine.None → HasNoLine self.now.ended (drop self.now.at self.now.held.items) }
    {
        let rest = self.rest();
        next_of(self.ended, rest)
    }

    /// The bytes of a next line of this size.
    pub fn line(&self, size: usize) -> &[u8]
        ensures { result.now ≡ take size (drop self.now.at self.now.held.items) }
    {
        let rest = self.rest();
        rest.get(..size).unwrap_or(rest)
    }

    /// Takes a line of this size, and its line end.
    pub fn pass(&mut self, size: usize)
        ensures at { self.new.at ≡ min (self.old.at + size + 1) (length self.old.held.items) }
        ensures held { self.new.held ≡ self.old.held }
    {
        self.at = self
            .at
            .saturating_add(size)
            .saturating_add(1)
            .min(self.held.len());
        self.number = self.number.saturating_add(1);
    }
}
