//! Checking a journal with its certificate.
ghost use Rattle.std.specs.Prelude.{◌≡◌, ◌≢◌, ℕ, IfOk, IfErr};
ghost use Rattle.audit_cert.specs.declared.fault.AuditFault.TheVariants.{NoMemory as no_memory};
ghost use Rattle.audit_cert.specs.Basis.{IsBasisOf};
ghost use Rattle.audit_cert.specs.Certificate.{certificate_bytes};
ghost use Rattle.audit_cert.specs.Audit.{IsCertified, IsAuditFault, AreItems, IsTold, IsFaultOf, differing_line, messages_of_frames};

use crate::anchors::Anchors;
use crate::basis::Basis;
use crate::fault::AuditFault;
use crate::judging::Judging;
use crate::kept_frame::KeptFrame;
use crate::lines::{put_counts, put_elements, put_frames};
use crate::opening::open;
use crate::ranks::Ranks;
use crate::rematch::rematch_table;
use element_name::NoMemory;
use std::alloc::Global;

// The number, from 1, of the line of the first difference.
fn differing_line(due: &[u8], told: &[u8]) -> usize
    ensures { result ≡ differing_line due.now told.now }
{
    let mut line = 1;
    let mut rest = told;
    for byte in due {
        let [next, behind @ ..] = rest else {
            return line;
        };
        if byte != next {
            return line;
        }
        if *byte == b'\n' {
            line += 1;
        }
        rest = behind;
    }
    line
}

// The certificate that is due to the journal of these frames.
fn due_certificate(
    alloc: Global,
    basis: &Basis<Anchors>,
    frames: &[KeptFrame],
) -> Result<Vec<u8>, NoMemory>
    requires journal { AreItems frames.now }
    requires basis { IsBasisOf (messages_of_frames frames.now) basis.now.log basis.now.elements basis.now.ids }
    ensures { IfOk result (λ due. due.items ≡ certificate_bytes (messages_of_frames frames.now)) }
{
    let Basis { log, elements, ids } = basis;
    let names = elements.names(alloc)?;
    let places = Ranks::of(alloc, names)?;
    let mut due = Vec::new(alloc);
    put_counts(&mut due, ids.len() as u64, u64::from(log.len()))?;
    put_elements(&mut due, places.names())?;
    let table = rematch_table(alloc, log)?;
    let judging = Judging {
        log,
        table: &table,
        places: &places,
    };
    put_frames(alloc, &mut due, &judging, frames)?;
    Ok(due)
}

// Whether what is told of frames is the certificate of their journal, of which this is kept.
fn check_told(
    alloc: Global,
    basis: &Basis<Anchors>,
    frames: &[KeptFrame],
    told: &[u8],
) -> Result<(u32, u32), AuditFault>
    requires journal { AreItems frames.now }
    requires basis { IsBasisOf (messages_of_frames frames.now) basis.now.log basis.now.elements basis.now.ids }
    ensures told { IfOk result (IsTold frames.now told.now) }
    ensures fault { IfErr result (IsFaultOf frames.now told.now) }
{
    let counts = (basis.ids.len() as u32, basis.log.len());
    let due = due_certificate(alloc, basis, frames)?;
    if due.as_slice() == told {
        return Ok(counts);
    }
    Err(AuditFault::Differs(differing_line(&due, told)))
}

// Whether what is told of frames is the certificate of their journal.
fn check(alloc: Global, frames: &[KeptFrame], told: &[u8]) -> Result<(u32, u32), AuditFault>
    ensures told { IfOk result (IsTold frames.now told.now) }
    ensures fault { IfErr result (IsFaultOf frames.now told.now) }
{
    let basis = Basis::of_frames(alloc, Anchors::new(alloc), frames)?;
    check_told(alloc, &basis, frames, told)
}

/// Whether bytes are the frames of a journal within its limits, End, and the journal's certificate; and how many requests
/// and entries it has.
///
/// Nothing that is told is taken on trust: the journal is read, the text order and each state are found anew, and what is
/// told is compared with what is due. Takes time n log n in the number of messages, and for each request in the number of
/// versions at which it is judged and whose entry isn't on other users alone, and at these in their policy's authorizations;
/// and memory for the frames, the names of the requests, the elements, the log, a policy, 8 bytes for each user that an
/// entry lists, and the certificate.
///
/// Of other bytes the first fault is told: a frame that is none, then frames that are no journal, and then a line that
/// isn't that of the certificate. Fails also where memory is wanting.
pub fn audit(alloc: Global, bytes: &[u8]) -> Result<(u32, u32), AuditFault>
    ensures certified { IfOk result (IsCertified bytes.now) }
    ensures fault { IfErr result (IsAuditFault bytes.now) }
    ensures refused { IfErr result (λ fault. fault ≢ no_memory → (counts : ℕ × ℕ) → ¬ IsCertified bytes.now counts) }
{
    match open(alloc, bytes) {
        Ok(opened) => check(alloc, &opened.frames, opened.told),
        Err(fault) => Err(fault),
    }
}
