//! Steps whose changes of the shown text are told.
ghost use Rattle.std.specs.Prelude.{◌≡◌, ◌≤◌, length, IfOk, OnOk, OnErr};
ghost use Rattle.peer_core.specs.After.{peer_after};
ghost use Rattle.peer_core.specs.Answers.{answer_of};
ghost use Rattle.peer_core.specs.Peer.{history, log, text, undone_since};
ghost use Rattle.text_change.specs.Rows.{text_told};

use crate::ahead::Ahead;
use element_name::NoMemory;
use peer_core::{Peer, Sweep};
use peer_step::{Answer, LocalEdit, Step};
use std::alloc::Global;

/// The answer to a step, and the rows that tell what it changed in the shown text.
///
/// A row is an edit in place, and changes one piece: an insert takes none out and puts one in, a delete takes one out,
/// and an update does both. The rows apply one after another, each to the text that the rows before it left.
#[derive(Drop)]
pub struct Told {
    /// The answer.
    pub answer: Answer,
    /// The rows, in the order in which they apply.
    pub rows: Vec<LocalEdit>,
}

/// Makes a step as `Peer::step_by` does, and tells what it changed in the shown text.
///
/// A request changes at most one piece, and an entry that undoes k requests at most k.
///
/// Time: beside the step's own, an entry takes a few look-ups for each Tentative request within its reach, and each row
/// what `Peer::shown_up_to` takes.
///
/// Memory: room for as many rows as elements have a Tentative request within the entry's reach, and for a while what
/// shows of these, about 400 bytes for each; of a request, room for one row. It is taken before the step is made.
///
/// Fails where memory is wanting, and the peer is then as it was.
pub fn step_told<W: Sweep>(
    alloc: Global,
    peer: &mut Peer,
    step: Step,
    sweep: &W,
) -> Result<Told, NoMemory>
    ensures answer { IfOk result (λ told. told.answer ≡ answer_of peer.old step) }
    ensures after { OnOk result (peer.new ≡ peer_after peer.old step) }
    ensures unchanged { OnErr result (peer.new ≡ peer.old) }
    ensures text { IfOk result (λ told. text_told (text peer.old) told.rows.items ≡ text peer.new) }
    ensures one { IfOk result (λ told. log peer.new ≡ log peer.old → length told.rows.items ≤ 1) }
    ensures few { IfOk result (λ told. history peer.new ≡ history peer.old → length told.rows.items ≤ undone_since peer.old peer.new) }
{
    let ahead = Ahead::of(alloc, peer, &step)?;
    let answer = peer.step_by(step, sweep)?;
    let rows = ahead.rows(peer, &answer);
    Ok(Told { answer, rows })
}
