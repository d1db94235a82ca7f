//! Making certificates.
ghost use Rattle.std.specs.Prelude.{◌≡◌, ◌++◌, IfOk, IfErr, OnOk, OnErr};
ghost use Rattle.tomb_seq.specs.Slots.{names_in};
ghost use Rattle.peer_tables.specs.Journal.{IsWithin};
ghost use Rattle.audit_cert.specs.Basis.{IsBasisOf};
ghost use Rattle.audit_cert.specs.Certificate.{certificate_bytes};
ghost use Rattle.audit_cert.specs.Journals.{IsFailOf};

use crate::basis::Basis;
use crate::fail::CertFail;
use crate::judging::Judging;
use crate::lines::{put_counts, put_elements, put_requests};
use crate::rematch::rematch_table;
use element_name::NoMemory;
use peer_core::JournalItem;
use std::alloc::Global;
use tomb_seq::TombSeq;

// The bytes of the certificate of a journal, of which this is kept.
fn certificate_of(
    alloc: Global,
    basis: &Basis<TombSeq>,
    journal: &[JournalItem<'_>],
) -> Result<Vec<u8>, NoMemory>
    requires { IsBasisOf journal.now basis.now.log (names_in basis.now.elements) basis.now.ids }
    ensures { IfOk result (λ lines. lines.items ≡ certificate_bytes journal.now) }
{
    let mut lines = Vec::new(alloc);
    put_counts(
        &mut lines,
        basis.ids.len() as u64,
        u64::from(basis.log.len()),
    )?;
    let names = basis.elements.names()?;
    put_elements(&mut lines, &names)?;
    let table = rematch_table(alloc, &basis.log)?;
    let judging = Judging {
        log: &basis.log,
        table: &table,
        places: &basis.elements,
    };
    put_requests(alloc, &mut lines, &judging, journal)?;
    Ok(lines)
}

// Appends the certificate of a journal, of which this is kept.
fn put_certificate(
    alloc: Global,
    basis: &Basis<TombSeq>,
    journal: &[JournalItem<'_>],
    out: &mut Vec<u8>,
) -> Result<(), NoMemory>
    requires { IsBasisOf journal.now basis.now.log (names_in basis.now.elements) basis.now.ids }
    ensures certificate { OnOk result (out.new.items ≡ out.old.items ++ certificate_bytes journal.now) }
    ensures unchanged { OnErr result (out.new.items ≡ out.old.items) }
{
    let lines = certificate_of(alloc, basis, journal)?;
    out.extend_from_slice(&lines)?;
    Ok(())
}

/// Appends the certificate of a journal.
///
/// The messages are those that a peer gives of its journal, whose entries are lent: one at a time is copied. Takes time
/// n log n in the number of messages, for each request also in the number of versions at which it is judged and whose entry
/// isn't on other users alone, at these also in their policy's authorizations, and in the certificate's length; and memory
/// for the names of the requests, the elements, the log, a policy, 8 bytes for each user that an entry lists, and twice the
/// certificate.
///
/// Fails with the number of the first message with which they are no journal, or one above its limits, and where memory
/// is wanting.
pub fn certify(
    alloc: Global,
    journal: &[JournalItem<'_>],
    out: &mut Vec<u8>,
) -> Result<(), CertFail>
    ensures journal { OnOk result (IsWithin journal.now) }
    ensures certificate { OnOk result (out.new.items ≡ out.old.items ++ certificate_bytes journal.now) }
    ensures fail { IfErr result (IsFailOf journal.now) }
    ensures unchanged { OnErr result (out.new.items ≡ out.old.items) }
{
    let basis = Basis::of(alloc, TombSeq::new(alloc), journal)?;
    match put_certificate(alloc, &basis, journal, out) {
        Ok(()) => Ok(()),
        Err(NoMemory) => Err(CertFail::NoMemory),
    }
}
