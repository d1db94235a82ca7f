//! The list of the steps that an input asks for.
ghost use Rattle.std.specs.Prelude.{◌≡◌, ◌≢◌, ◌+◌, ◌^◌, ◌<◌, ℕ, List, [], ◌∷◌, ◌++◌, length, OnOk};
ghost use Rattle.line_engine.specs.Engine.{Reads};
ghost use Rattle.peer_step.specs.declared.step.Step.{Step};
ghost use Rattle.line_input.specs.Steps.{ReadSteps, EndCause};
ghost use Rattle.line_input.specs.Turn.{step_line_turn, step_line_closing, IsReadingStatus, end_after};

use crate::nowhere::Nowhere;
use edit_io::Source;
use element_name::NoMemory;
use line_engine::{Lines, Status, run_world};
use line_read::step_line;
use line_spelling::LineFail;
use peer_step::Step;
use std::alloc::Global;
use std::marker::Model;

/// How reading step lines ended.
#[derive(Clone, Copy, Debug, PartialEq, Eq)]
pub enum InputEnd {
    /// The input was read to its end, and all its lines are good.
    Whole,
    /// The line of this number, counted from 1, is bad.
    BadLine(u64),
    /// The input is longer than [`MAX_INPUT`](line_engine::MAX_INPUT) bytes, and the lines that end within these are
    /// good.
    TooLong,
    /// The source failed.
    ReadFault,
    /// Memory was wanting. No contract says when it is.
    NoMemory,
}

/// The steps that were read of an input, in the order of its lines, and how reading ended.
#[derive(Drop)]
pub struct StepInput {
    pub steps: Vec<Step>,
    pub end: InputEnd,
}

// The steps of the lines so far.
#[derive(Drop)]
struct StepLines {
    steps: Vec<Step>,
}

impl Model for StepLines {
    ghost Value = { List Step };

    ghost view = { λ l. l.steps.items };
}

impl StepLines {
    fn new(alloc: Global) -> StepLines
        ensures { result ≡ [] }
    {
        StepLines {
            steps: Vec::new(alloc),
        }
    }

    fn push(&mut self, step: Step) -> Result<(), NoMemory>
        ensures { OnOk result (self.new ≡ self.old ++ step ∷ []) }
    {
        self.steps.push(step)?;
        Ok(())
    }

    fn into_steps(self) -> Vec<Step>
        ensures { result.items ≡ self }
    {
        let StepLines { steps } = self;
        steps
    }
}

impl Lines for StepLines {
    ghost turn = { step_line_turn };

    ghost closing = { step_line_closing };

    fn line(&mut self, alloc: Global, line: &[u8], _out: &mut Vec<u8>) -> Result<(), LineFail> {
        let step = step_line(alloc, line)?;
        match self.push(step) {
            Ok(()) => Ok(()),
            Err(NoMemory) => Err(LineFail::NoMemory),
        }
    }

    fn close(&self, _alloc: Global, _out: &mut Vec<u8>) -> Result<(), LineFail> {
        Ok(())
    }
}

// How reading ended, by the status that it gave and how many good lines there are before its end.
fn input_end(status: Status, good: usize) -> InputEnd
    requires status { IsReadingStatus status }
    requires room { good < 2 ^ 63 }
    ensures { result ≡ end_after status good }
{
    match status {
        Status::Done => InputEnd::Whole,
        Status::BadInput => InputEnd::BadLine(good as u64 + 1),
        Status::TooLong => InputEnd::TooLong,
        Status::ReadFault => InputEnd::ReadFault,
        Status::NoMemory => InputEnd::NoMemory,
        _ => unreachable!(),
    }
}

// The steps that are told of. Where memory was wanting it isn't known which were read, and none is told.
fn told_steps(alloc: Global, steps: Vec<Step>, end: InputEnd) -> Vec<Step>
    ensures none { end ≡ InputEnd.NoMemory → result.items ≡ [] }
    ensures all { end ≢ InputEnd.NoMemory → result.items ≡ steps.items }
{
    match end {
        InputEnd::NoMemory => Vec::new(alloc),
        InputEnd::Whole | InputEnd::BadLine(_) | InputEnd::TooLong | InputEnd::ReadFault => steps,
    }
}

/// Reads the step lines that a source gives, and lists their steps up to where reading ends.
///
/// It reads at most one byte more than [`MAX_INPUT`](line_engine::MAX_INPUT). It takes time in the bytes, and the
/// memory of the steps, of which each takes some 320 bytes. Where memory is wanting it lists none.
pub fn read_steps<S: Source>(alloc: Global, source: &mut S) -> StepInput
    ensures read { (input : List ℕ) × ReadSteps (S.left source.old) (S.left source.new) input result.steps.items result.end }
    ensures reads { Reads (S.left source.old) (S.left source.new) }
    ensures cause { EndCause (S.faults source.old) (S.faults source.new) result.end }
{
    let (lines, status) = run_world(alloc, StepLines::new(alloc), source, &mut Nowhere);
    let steps = lines.into_steps();
    let end = input_end(status, steps.len());
    let steps = told_steps(alloc, steps, end);
    StepInput { steps, end }
}
