//! The intake that certifies the journal which a stream leaves.
ghost use Rattle.std.specs.Prelude.{◌≡◌, ◌≢◌, ℕ, ◌++◌, List, OnOk, IfOk, ⊤};
ghost use Rattle.line_engine.specs.Engine.{Ran, Reads, StatusCause};
ghost use Rattle.peer_tables.specs.Journal.{IsWithin};
ghost use Rattle.audit_cert.specs.Certificate.{certificate_bytes};
ghost use Rattle.form_certificate.specs.Certify.{journal_bytes, certified_bytes, certify_output, certify_part};
ghost use Rattle.form_certificate.specs.Form.{certifier_turn, certifier_closing};

use audit_cert::{CertFail, certify};
use edit_frame::{Frame, LentFrame, encode};
use edit_io::{Sink, Source};
use element_name::NoMemory;
use form_feed::{Intake, feed_intake, take_untold};
use line_engine::Status;
use peer_core::{JournalItem, Peer};
use std::alloc::Global;

/// The peer that takes a stream in.
#[derive(Drop)]
struct Certifier {
    peer: Peer,
}

// The messages of a peer's journal, in order.
fn journal_of(alloc: Global, peer: &Peer) -> Result<Vec<JournalItem<'_>>, NoMemory>
    ensures journal { IfOk result (λ items. items.items ≡ peer.now.journal) }
{
    let mut items = Vec::new(alloc);
    for i in 0..peer.journal_len() {
        let Some(item) = peer.journal(i) else {
            unreachable!()
        };
        items.push(item)?;
    }
    Ok(items)
}

// Appends the frames of messages.
fn put_journal(
    alloc: Global,
    journal: &[JournalItem<'_>],
    out: &mut Vec<u8>,
) -> Result<(), NoMemory>
    ensures { OnOk result (out.new.items ≡ out.old.items ++ journal_bytes journal.now) }
{
    for item in journal {
        encode(alloc, &Frame::Item(item.copied()?), out)?;
    }
    Ok(())
}

// Appends the certificate of a journal.
fn put_certificate(
    alloc: Global,
    journal: &[JournalItem<'_>],
    out: &mut Vec<u8>,
) -> Result<(), NoMemory>
    requires { IsWithin journal.now }
    ensures { OnOk result (out.new.items ≡ out.old.items ++ certificate_bytes journal.now) }
{
    match certify(alloc, journal, out) {
        Ok(()) => Ok(()),
        Err(CertFail::NoMemory) => Err(NoMemory),
        Err(CertFail::NotJournal(_number)) => unreachable!(),
    }
}

// Appends the frames of a peer's journal, End and the certificate.
fn put_certified(alloc: Global, peer: &Peer, out: &mut Vec<u8>) -> Result<(), NoMemory>
    ensures { OnOk result (out.new.items ≡ out.old.items ++ certified_bytes peer.now.journal) }
{
    // That a peer's journal is one follows from what this says.
    let _ = peer.site();
    let journal = journal_of(alloc, peer)?;
    put_journal(alloc, &journal, out)?;
    encode(alloc, &Frame::End, out)?;
    put_certificate(alloc, &journal, out)
}

impl Intake for Certifier {
    ghost turn = { certifier_turn };

    ghost closing = { certifier_closing };

    fn take_in(
        &mut self,
        _alloc: Global,
        frame: LentFrame<'_>,
        _out: &mut Vec<u8>,
    ) -> Result<(), NoMemory> {
        take_untold(&mut self.peer, frame)
    }

    fn close(&mut self, alloc: Global, out: &mut Vec<u8>) -> Result<(), NoMemory> {
        put_certified(alloc, &self.peer, out)
    }
}

/// Feeds a stream of frames to a fresh peer of a site, and writes the journal that it leaves, End and the certificate.
///
/// The stream is taken in as `feed` takes it, and nothing is written of what the peer answers. Messages
/// that the peer still holds at the end are in no journal, and so not among what is certified. At a bad frame, or where
/// the stream ends within one or is longer than [`MAX_INPUT`](line_engine::MAX_INPUT) bytes, the line that says so is
/// all that is written.
///
/// What is written may be longer than such an input may be. It takes the time and the memory of feeding and of
/// [`certify`](audit_cert::certify), and memory for all that is written.
pub fn certify_stream<S: Source, K: Sink>(
    alloc: Global,
    site: u16,
    source: &mut S,
    sink: &mut K,
) -> Status
    ensures ran { (input : List ℕ) × (written : List ℕ) ×
        Ran (certify_output site) certify_part (λ cut bytes. ⊤)
        (S.left source.old) (S.left source.new) (K.written sink.old) (K.written sink.new) result input written }
    ensures reads { Reads (S.left source.old) (S.left source.new) }
    ensures read_cause { StatusCause (S.faults source.old) (S.faults source.new) result Status.ReadFault }
    ensures write_cause { StatusCause (K.faults sink.old) (K.faults sink.new) result Status.WriteFault }
{
    let Ok(peer) = Peer::new(alloc, site) else {
        return Status::NoMemory;
    };
    let (_, status) = feed_intake(alloc, Certifier { peer }, source, sink);
    status
}
