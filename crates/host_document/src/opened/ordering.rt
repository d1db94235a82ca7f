//! Rows of orders to a document that is open.
ghost use Rattle.std.specs.Prelude.{◌≡◌, ◌∷◌, ◌++◌, Some, None, true, false, OnOk, IfOk, IfErr};
ghost use Rattle.peer_step.specs.declared.step.Step.{Step};
ghost use Rattle.peer_core.specs.Answers.{answer_of};
ghost use Rattle.line_spelling.specs.Answers.{answer_line};
ghost use Rattle.host_core.specs.declared.event.HostEvent.{HostEvent};
ghost use Rattle.host_core.specs.Past.{host_peer};
ghost use Rattle.host_interface.specs.Rows.{past_behind, answers_to, IsRowMade};
ghost use Rattle.host_interface.specs.Foreseen.{IsOutlook, IsForeseen};

use super::Opened;
use super::foreseen::user_lines;
use crate::row::{read_order, read_row};
use crate::rules::Rules;
use element_name::NoMemory;
use host_core::LinkId;
use host_interface::RowFault;
use line_write::{answer_line, put};
use peer_outlook::Outlook;
use peer_step::{Answer, Step};
use policy_book::AdminOp;
use std::alloc::Global;
use std::mem;

/// Why a row stopped, and whether a part of it was made.
#[derive(Clone, Copy)]
pub(crate) struct Halt {
    pub(crate) fault: RowFault,
    pub(crate) is_torn: bool,
}

impl From<RowFault> for Halt {
    ghost use Rattle.std.specs.Prelude.{◌≡◌, false};

    ghost from_gives = { λ fault halt. halt ≡ record { fault = fault; is_torn = false } };

    fn from(fault: RowFault) -> Halt {
        Halt {
            fault,
            is_torn: false,
        }
    }
}

impl From<NoMemory> for Halt {
    ghost use Rattle.std.specs.Prelude.{◌≡◌, false};

    ghost from_gives = { λ _ halt. halt.is_torn ≡ false };

    fn from(_: NoMemory) -> Halt {
        Halt::from(RowFault::NoMemory)
    }
}

// A halt behind a step that was made.
fn torn_by(fault: RowFault) -> Halt
    ensures { result.is_torn ≡ true }
{
    Halt {
        fault,
        is_torn: true,
    }
}

// Appends the line of the answer to a step that was made.
fn put_answer(alloc: Global, answer: &Answer, lines: &mut Vec<u8>) -> Result<(), Halt>
    ensures line { OnOk result (lines.new.items ≡ lines.old.items ++ answer_line None answer.now) }
    ensures torn { IfErr result (λ halt. halt.is_torn ≡ true) }
{
    match answer_line(alloc, None, answer, lines) {
        Ok(()) => Ok(()),
        Err(_) => Err(torn_by(RowFault::NoMemory)),
    }
}

// The line of an answer, which goes.
fn line_of(alloc: Global, answer: Answer) -> Result<Vec<u8>, NoMemory>
    ensures { IfOk result (λ line. line.items ≡ answer_line None answer) }
{
    let mut line = Vec::new(alloc);
    let put = answer_line(alloc, None, &answer, &mut line);
    drop(answer);
    put?;
    Ok(line)
}

impl<'a> Opened<'a> {
    // The rules behind a row, if each of it can be made.
    fn foreseen(&self, row: &[Step]) -> Result<Rules, RowFault> {
        let mut rules = self.rules.at_front(self.host.peer())?;
        match rules.foresee_row(self.host.peer(), row) {
            Ok(()) => Ok(rules),
            Err(fault) => {
                drop(rules);
                Err(fault)
            }
        }
    }

    // Makes a step of a row for a link, and appends the line of its answer.
    fn make_step(
        &mut self,
        alloc: Global,
        link: LinkId,
        step: &Step,
        lines: &mut Vec<u8>,
    ) -> Result<(), Halt>
        ensures made { OnOk result (self.new ≡ HostEvent.Made (Some link) step.now ∷ self.old) }
        ensures answer { OnOk result (lines.new.items ≡ lines.old.items ++ answer_line None (answer_of (host_peer self.old) step.now)) }
        ensures nothing { IfErr result (λ halt. halt.is_torn ≡ false → self.new ≡ self.old) }
    {
        let copy = step.copied()?;
        match self.ask(link, copy) {
            Ok(answer) => {
                let put = put_answer(alloc, &answer, lines);
                drop(answer);
                put
            }
            Err(why) => Err(Halt::from(RowFault::Ended(why))),
        }
    }

    // Makes the steps of a row for a link, and gives the lines of their answers.
    fn make_row(&mut self, alloc: Global, link: LinkId, row: &[Step]) -> Result<Vec<u8>, Halt>
        ensures made { OnOk result (self.new ≡ past_behind link row.now self.old) }
        ensures answers { IfOk result (λ lines. lines.items ≡ answers_to link row.now self.old) }
        ensures nothing { IfErr result (λ halt. halt.is_torn ≡ false → self.new ≡ self.old) }
    {
        let mut lines = Vec::new(alloc);
        let mut is_torn = false;
        for step in row {
            match self.make_step(alloc, link, step, &mut lines) {
                Ok(()) => is_torn = true,
                Err(halt) => {
                    if is_torn {
                        return Err(torn_by(halt.fault));
                    }
                    return Err(halt);
                }
            }
        }
        Ok(lines)
    }

    // Makes a row of a link, if each of it can be made.
    fn make_foreseen(&mut self, alloc: Global, link: LinkId, row: &[Step]) -> Result<Vec<u8>, Halt>
        ensures made { OnOk result (self.new ≡ past_behind link row.now self.old) }
        ensures answers { IfOk result (λ lines. lines.items ≡ answers_to link row.now self.old) }
        ensures nothing { IfErr result (λ halt. halt.is_torn ≡ false → self.new ≡ self.old) }
    {
        let rules = self.foreseen(row)?;
        match self.make_row(alloc, link, row) {
            Ok(lines) => {
                drop(mem::replace(&mut self.rules, rules));
                Ok(lines)
            }
            Err(halt) => {
                drop(rules);
                Err(halt)
            }
        }
    }

    /// Makes a row of orders of a link, and gives the lines of the answers.
    pub(crate) fn order(
        &mut self,
        alloc: Global,
        link: LinkId,
        text: &[u8],
    ) -> Result<Vec<u8>, Halt>
        ensures whole { IfOk result (λ lines. IsRowMade link text.now self.old self.new lines.items) }
        ensures nothing { IfErr result (λ halt. halt.is_torn ≡ false → self.new ≡ self.old) }
    {
        let row = read_row(alloc, text)?;
        match self.make_foreseen(alloc, link, &row) {
            Ok(lines) => {
                drop(row);
                Ok(lines)
            }
            Err(halt) => {
                drop(row);
                Err(halt)
            }
        }
    }

    // The lines of an operation: the answer that it would get now, and whose edits it would undo.
    fn line_of_would(&self, alloc: Global, op: &AdminOp) -> Result<Vec<u8>, RowFault>
        ensures { IfOk result (λ lines. IsOutlook (host_peer self.now) op.now lines.items) }
    {
        let Outlook { answer, undone } = self.host.outlook(alloc, op)?;
        let mut lines = line_of(alloc, answer)?;
        let whose = user_lines(alloc, &undone)?;
        put(&mut lines, &whose)?;
        Ok(lines)
    }

    /// What the operation of a line would do now: the line of the answer that its step would get, and behind it a line for
    /// each user whose edits it would undo, with how many. It takes the time and memory of the whole journal.
    pub(crate) fn would(&self, alloc: Global, line: &[u8]) -> Result<Vec<u8>, RowFault>
        ensures { IfOk result (λ lines. IsForeseen line.now self.now lines.items) }
    {
        match read_order(alloc, 1, line)? {
            Step::Administer(op) => {
                let line = self.line_of_would(alloc, &op);
                drop(op);
                line
            }
            step => {
                drop(step);
                Err(RowFault::BadLine(1))
            }
        }
    }
}
