//! The form that reads a journal with its certificate, and says whether they hold.
ghost use Rattle.std.specs.Prelude.{◌≡◌, ◌≢◌, ℕ, ◌+◌, ◌++◌, ◌∷◌, List, [], true, length, decimal, codes, Ok, Err, OnOk, IfOk, IsTrue, ⊤};
ghost use Rattle.line_engine.specs.Output.{is_whole};
ghost use Rattle.line_engine.specs.Engine.{Ran, Reads, StatusCause};
ghost use Rattle.line_engine.specs.Form.{Rests};
ghost use Rattle.form_certificate.specs.Answer.{audit_answer};
ghost use Rattle.form_certificate.specs.Audit.{holds_line, no_journal_line, differs_line, told_of, audit_output, audit_part};
ghost use Rattle.form_certificate.specs.Form.{audit_meaning};

use audit_cert::{AuditFault, audit};
use edit_io::{Sink, Source};
use element_name::NoMemory;
use line_engine::{Form, Next, Status, run};
use line_write::{put, put_number_word};
use report_text::frame_fault_line;
use std::alloc::{AllocError, Global};

/// The bytes that came so far.
#[derive(Drop)]
struct Auditing {
    bytes: Vec<u8>,
}

// Appends the line that says that a certificate holds.
fn put_holds(out: &mut Vec<u8>, counts: (u32, u32)) -> Result<(), NoMemory>
    ensures { OnOk result (out.new.items ≡ out.old.items ++ holds_line counts) }
{
    let (requests, entries) = counts;
    put(out, b"certificate holds")?;
    put_number_word(out, u64::from(requests))?;
    put_number_word(out, u64::from(entries))?;
    put(out, b"\n")
}

// Appends the line that says from which frame on frames are no journal.
fn put_no_journal(out: &mut Vec<u8>, frame: usize) -> Result<(), NoMemory>
    ensures { OnOk result (out.new.items ≡ out.old.items ++ no_journal_line frame) }
{
    put(out, b"not a journal")?;
    put_number_word(out, frame as u64)?;
    put(out, b"\n")
}

// Appends the line that says from which line on a certificate is another.
fn put_differs(out: &mut Vec<u8>, line: usize) -> Result<(), NoMemory>
    ensures { OnOk result (out.new.items ≡ out.old.items ++ differs_line line) }
{
    put(out, b"certificate line")?;
    put_number_word(out, line as u64)?;
    put(out, b" differs\n")
}

// Appends the line of a fault, and gives its status.
fn put_fault(alloc: Global, fault: AuditFault, out: &mut Vec<u8>) -> Result<Status, NoMemory>
    requires { out.old.items ≡ [] }
    ensures told { IfOk result (λ status. told_of (Err fault) ≡ record { written = out.new.items; status = status }) }
    ensures whole { IfOk result (λ status. IsTrue (is_whole status)) }
{
    match fault {
        AuditFault::BadFrame(fault) => {
            frame_fault_line(alloc, fault, out)?;
            Ok(Status::BadInput)
        }
        AuditFault::NotJournal(frame) => {
            put_no_journal(out, frame)?;
            Ok(Status::NotShown)
        }
        AuditFault::Differs(line) => {
            put_differs(out, line)?;
            Ok(Status::NotShown)
        }
        AuditFault::NoMemory => Err(NoMemory),
    }
}

// Appends what is said of bytes, and gives its status.
fn put_audit_answer(alloc: Global, bytes: &[u8], out: &mut Vec<u8>) -> Result<Status, NoMemory>
    requires { out.old.items ≡ [] }
    ensures told { IfOk result (λ status. told_of (audit_answer bytes.now) ≡ record { written = out.new.items; status = status }) }
    ensures whole { IfOk result (λ status. IsTrue (is_whole status)) }
{
    match audit(alloc, bytes) {
        Ok(counts) => {
            put_holds(out, counts)?;
            Ok(Status::Done)
        }
        Err(fault) => put_fault(alloc, fault, out),
    }
}

impl Form for Auditing {
    ghost meaning = { audit_meaning };

    ghost held = { λ f. length f.bytes.items };

    ghost load = { λ f. length f.bytes.items };

    fn feed(&mut self, _alloc: Global, chunk: &[u8]) -> Result<(), AllocError> {
        self.bytes.extend_from_slice(chunk)
    }

    fn next(&mut self, _alloc: Global, _out: &mut Vec<u8>) -> Result<Next, AllocError> {
        Ok(Next::Waiting)
    }

    fn end(&mut self, alloc: Global, cut: bool, out: &mut Vec<u8>) -> Result<Status, AllocError> {
        if cut {
            out.extend_from_slice(b"too long\n")?;
            return Ok(Status::TooLong);
        }
        put_audit_answer(alloc, &self.bytes, out).or(Err(AllocError))
    }
}

impl Auditing {
    fn new(alloc: Global) -> Auditing
        ensures value { result.bytes.items ≡ [] }
        ensures rests { Rests audit_meaning result }
    {
        Auditing {
            bytes: Vec::new(alloc),
        }
    }
}

/// Reads an input to its end, and says whether it is the frames of a journal, End and the journal's certificate.
///
/// What is said of another input is its first fault: a frame that is none, then frames that are no journal, and then a
/// line that isn't that of the certificate. An input that is longer than [`MAX_INPUT`](line_engine::MAX_INPUT) bytes
/// isn't looked at, which what [`certify_stream`](crate::certify_stream) writes may be. Where reading fails nothing is
/// written.
///
/// It takes the time and the memory of [`audit`](audit_cert::audit), and memory for the input.
pub fn audit_input<S: Source, K: Sink>(alloc: Global, source: &mut S, sink: &mut K) -> Status
    ensures ran { (input : List ℕ) × (written : List ℕ) ×
        Ran audit_output audit_part (λ cut bytes. ⊤)
        (S.left source.old) (S.left source.new) (K.written sink.old) (K.written sink.new) result input written }
    ensures reads { Reads (S.left source.old) (S.left source.new) }
    ensures read_cause { StatusCause (S.faults source.old) (S.faults source.new) result Status.ReadFault }
    ensures write_cause { StatusCause (K.faults sink.old) (K.faults sink.new) result Status.WriteFault }
{
    let mut form = Auditing::new(alloc);
    run(alloc, &mut form, source, sink)
}
