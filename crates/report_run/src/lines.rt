//! The lines of a report.
ghost use Rattle.std.specs.Prelude.{◌≡◌, ◌≢◌, ◌++◌, OnOk, decimal};
ghost use Rattle.peer_core.specs.Peer.{Peer};
ghost use Rattle.peer_core.specs.Answers.{answer_of};
ghost use Rattle.peer_core.specs.After.{peer_after};
ghost use Rattle.peer_lock.specs.Run.{call};
ghost use Rattle.peer_lock.specs.KeptAnswers.{kept_answer_of};
ghost use Rattle.report_run.specs.Report.{run_line, asked_text, call_line};

use crate::kept::put_kept_answer;
use element_name::NoMemory;
use itoa::Buffer;
use line_write::{put, put_number_word, step_text};
use peer_core::Peer;
use peer_lock::KeptAnswer;
use peer_step::Step;
use report_text::answer_line_of;
use std::alloc::Global;

/// Appends the line that says how many steps a run has.
pub(crate) fn put_run(steps: u64, out: &mut Vec<u8>) -> Result<(), NoMemory>
    ensures { OnOk result (out.new.items ≡ out.old.items ++ run_line steps) }
{
    put(out, b"run")?;
    put_number_word(out, steps)?;
    put(out, b"\n")
}

// Appends a number in digits.
fn put_number(number: u32, out: &mut Vec<u8>) -> Result<(), NoMemory>
    ensures { OnOk result (out.new.items ≡ out.old.items ++ decimal number) }
{
    let mut buffer = Buffer::new();
    let digits = buffer.format(number);
    put(out, digits.as_bytes())
}

// Appends the number of a caller and its step, up to the answer.
fn put_asked(alloc: Global, caller: u32, step: &Step, out: &mut Vec<u8>) -> Result<(), NoMemory>
    ensures { OnOk result (out.new.items ≡ out.old.items ++ asked_text caller step.now) }
{
    put_number(caller, out)?;
    put(out, b" ")?;
    step_text(alloc, step, out)?;
    put(out, b" => ")
}

/// Makes a step of a run, and appends its line.
pub(crate) fn put_call(
    alloc: Global,
    peer: &mut Peer,
    caller: u32,
    step: Step,
    out: &mut Vec<u8>,
) -> Result<(), NoMemory>
    ensures line { OnOk result (out.new.items ≡ out.old.items ++ call_line peer.old (record { caller = caller; step = step })) }
    ensures peer { OnOk result (peer.new ≡ peer_after peer.old step) }
{
    match put_asked(alloc, caller, &step, out) {
        Ok(()) => answer_line_of(peer, step, out),
        Err(NoMemory) => {
            drop(step);
            Err(NoMemory)
        }
    }
}

/// Appends the line of a step, by what is kept of its answer, which is no text.
pub(crate) fn put_kept_call(
    alloc: Global,
    caller: u32,
    step: &Step,
    answer: &KeptAnswer,
    out: &mut Vec<u8>,
) -> Result<(), NoMemory>
    requires { answer.now ≢ KeptAnswer.Shown }
    ensures { (p : Peer) → answer.now ≡ kept_answer_of (answer_of p step.now)
        → OnOk result (out.new.items ≡ out.old.items ++ call_line p (call caller step.now)) }
{
    put_asked(alloc, caller, step, out)?;
    put_kept_answer(alloc, answer, out)
}
