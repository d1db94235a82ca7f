//! The lists of the steps that three workers run.
ghost use Rattle.std.specs.Prelude.{◌≡◌, ◌<◌, ◌≤◌, ℕ, List, OnOk};
ghost use Rattle.line_engine.specs.Engine.{RanLines, Reads, StatusCause};
ghost use Rattle.peer_lock.specs.declared.limits.TheConstants.{MAX_RUN};
ghost use Rattle.race_run.specs.Lists.{step_count, no_work, with_step, list_turn, list_closing};

use crate::worker::{Worker, worker_of};
use edit_io::{Sink, Source};
use element_name::NoMemory;
use line_engine::{Lines, Status, run_world};
use line_read::step_line;
use line_spelling::LineFail;
use peer_lock::MAX_RUN;
use peer_step::{PackedStep, Step};
use std::alloc::Global;
use std::marker::Model;

/// The steps that three workers run, each in its order, and packed.
#[derive(Drop)]
pub struct WorkLists {
    edits: Vec<PackedStep>,
    arrivals: Vec<PackedStep>,
    operations: Vec<PackedStep>,
}

impl Model for WorkLists {
    ghost use Rattle.std.specs.Prelude.{◌≤◌};
    ghost use Rattle.race_run.specs.Lists as spec;
    ghost use Rattle.peer_lock.specs.declared.limits.TheConstants.{MAX_RUN};

    ghost Value = { spec.WorkLists };

    ghost view = { λ l. record { edits = l.edits.items; arrivals = l.arrivals.items; operations = l.operations.items } };

    ghost invariant = { λ l. spec.step_count (record {
      edits = l.edits.items;
      arrivals = l.arrivals.items;
      operations = l.operations.items;
    }) ≤ MAX_RUN };
}

impl WorkLists {
    /// Lists without steps.
    pub fn new(alloc: Global) -> WorkLists
        ensures { result ≡ no_work }
    {
        WorkLists {
            edits: Vec::new(alloc),
            arrivals: Vec::new(alloc),
            operations: Vec::new(alloc),
        }
    }

    /// How many steps there are.
    pub fn count(&self) -> usize
        ensures { result ≡ step_count self.now }
    {
        self.edits.len() + self.arrivals.len() + self.operations.len()
    }

    /// Puts a step last in the list of its worker.
    fn push(&mut self, alloc: Global, step: Step) -> Result<(), NoMemory>
        requires { step_count self.old < MAX_RUN }
        ensures { OnOk result (self.new ≡ with_step self.old step) }
    {
        let worker = worker_of(&step);
        let packed = PackedStep::of(alloc, step)?;
        match worker {
            Worker::Editor => self.edits.push(packed)?,
            Worker::Receiver => self.arrivals.push(packed)?,
            Worker::Administrator => self.operations.push(packed)?,
        }
        Ok(())
    }

    /// The steps of the worker that edits, of the one that takes what arrives, and of the one that changes the policy.
    pub fn into_lists(self) -> (Vec<PackedStep>, Vec<PackedStep>, Vec<PackedStep>)
        ensures edits { result.0.items ≡ self.edits }
        ensures arrivals { result.1.items ≡ self.arrivals }
        ensures operations { result.2.items ≡ self.operations }
        ensures few { step_count self ≤ MAX_RUN }
    {
        let WorkLists {
            edits,
            arrivals,
            operations,
        } = self;
        (edits, arrivals, operations)
    }
}

impl Lines for WorkLists {
    ghost turn = { list_turn };

    ghost closing = { list_closing };

    fn line(&mut self, alloc: Global, line: &[u8], _out: &mut Vec<u8>) -> Result<(), LineFail> {
        if self.count() >= MAX_RUN {
            return Err(LineFail::Bad);
        }
        let step = step_line(alloc, line)?;
        match self.push(alloc, step) {
            Ok(()) => Ok(()),
            Err(NoMemory) => Err(LineFail::NoMemory),
        }
    }

    fn close(&self, _alloc: Global, _out: &mut Vec<u8>) -> Result<(), LineFail> {
        Ok(())
    }
}

/// Reads the step lines that a source gives into the lists of three workers.
///
/// It reads the input to its end before it gives the lists. At a bad line, or one more than [`MAX_RUN`], the line
/// that says so is written and reading ends; where the input is longer than [`MAX_INPUT`](line_engine::MAX_INPUT)
/// bytes, `too long` is written; otherwise nothing is. It takes time in the bytes, and the memory of the steps, packed.
pub fn read_lists<S: Source, K: Sink>(
    alloc: Global,
    source: &mut S,
    sink: &mut K,
) -> (WorkLists, Status)
    ensures ran { (input : List ℕ) × (written : List ℕ) ×
        RanLines list_turn list_closing no_work result.0 (S.left source.old) (S.left source.new)
        (K.written sink.old) (K.written sink.new) result.1 input written }
    ensures reads { Reads (S.left source.old) (S.left source.new) }
    ensures read_cause { StatusCause (S.faults source.old) (S.faults source.new) result.1 Status.ReadFault }
    ensures write_cause { StatusCause (K.faults sink.old) (K.faults sink.new) result.1 Status.WriteFault }
{
    run_world(alloc, WorkLists::new(alloc), source, sink)
}
