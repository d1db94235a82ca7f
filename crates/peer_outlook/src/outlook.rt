//! What an operation would do, and what steps would undo.
ghost use Rattle.std.specs.Prelude.{◌≡◌, fold, length, IfOk, OnOk};
ghost use Rattle.peer_step.specs.declared.step.Step.{Step};
ghost use Rattle.peer_core.specs.After.{peer_after};
ghost use Rattle.peer_core.specs.Answers.{answer_of};
ghost use Rattle.peer_core.specs.Restore.{peer_of_journal};
ghost use Rattle.peer_core.specs.Sound.{IsSound};
ghost use Rattle.peer_outlook.specs.Outlook.{names_undone, names_between, names_undone_by, SaysUndone, IsTried};

use crate::undone::undone_names;
use edit_message::Message;
use element_name::{Name, NoMemory};
use peer_core::Peer;
use peer_step::{Answer, Step};
use policy_book::AdminOp;
use std::alloc::Global;

/// What an operation would do: the peer's answer to it, and the names of the requests that it would undo, in order of
/// integration. The site of a name is the user whose request it is.
#[derive(Drop)]
pub struct Outlook {
    /// The answer.
    pub answer: Answer,
    /// The names.
    pub undone: Vec<Name>,
}

// The messages of a peer's journal.
fn journal_of(alloc: Global, peer: &Peer) -> Result<Vec<Message>, NoMemory>
    ensures { IfOk result (λ messages. messages.items ≡ peer.now.journal) }
{
    let mut messages = Vec::new(alloc);
    for i in 0..peer.journal_len() {
        let Some(item) = peer.journal(i) else {
            unreachable!()
        };
        messages.push(item.copied()?)?;
    }
    Ok(messages)
}

// A second peer of the same site and journal.
fn second_of(alloc: Global, peer: &Peer) -> Result<Peer, NoMemory>
    ensures second { IfOk result (λ second. second ≡ peer_of_journal peer.now.site peer.now.journal) }
    ensures sound { IsSound peer.now }
{
    let site = peer.site();
    let messages = journal_of(alloc, peer)?;
    match Peer::restore(alloc, site, &messages) {
        Ok(second) => Ok(second),
        Err(_) => Err(NoMemory),
    }
}

// What a step makes at another peer, which has the journal of the first: the answer, and the requests that are undone.
fn tried(alloc: Global, peer: &Peer, second: &mut Peer, step: Step) -> Result<Outlook, NoMemory>
    ensures { IfOk result (λ o. IsTried peer.now second.old second.new step o.answer o.undone.items) }
{
    let answer = second.step(step)?;
    match undone_names(alloc, peer, second) {
        Ok(undone) => Ok(Outlook { answer, undone }),
        Err(NoMemory) => {
            drop(answer);
            Err(NoMemory)
        }
    }
}

/// What an operation would do at a peer, which stays as it is: a second one is made of its journal, in the time and
/// memory that this takes, and makes the step.
///
/// Fails where memory is wanting.
pub fn foresee(alloc: Global, peer: &Peer, op: &AdminOp) -> Result<Outlook, NoMemory>
    ensures answer { IfOk result (λ o. o.answer ≡ answer_of peer.now (Step.Administer op.now)) }
    ensures undone { IfOk result (λ o. o.undone.items ≡ names_undone peer.now op.now) }
    ensures count { IfOk result (λ o. SaysUndone o.answer (length o.undone.items)) }
{
    peer_core::laws::restored();
    let step = Step::Administer(op.copied()?);
    let mut second = second_of(alloc, peer)?;
    let outlook = tried(alloc, peer, &mut second, step);
    drop(second);
    outlook
}

// Makes a step, of which a copy is kept.
fn make_copy(peer: &mut Peer, step: &Step) -> Result<(), NoMemory>
    ensures { OnOk result (peer.new ≡ peer_after peer.old step.now) }
{
    drop(peer.step(step.copied()?)?);
    Ok(())
}

// Makes steps, one after another.
fn make_each(peer: &mut Peer, steps: &[Step]) -> Result<(), NoMemory>
    ensures { OnOk result (peer.new ≡ fold peer_after peer.old steps.now) }
{
    for step in steps {
        make_copy(peer, step)?;
    }
    Ok(())
}

// The requests that steps undo at another peer, which has the journal of the first.
fn undone_behind(
    alloc: Global,
    peer: &Peer,
    second: &mut Peer,
    steps: &[Step],
) -> Result<Vec<Name>, NoMemory>
    ensures { IfOk result (λ names. names.items ≡ names_between peer.now (fold peer_after second.old steps.now)) }
{
    make_each(second, steps)?;
    undone_names(alloc, peer, second)
}

/// The names of the requests that steps would undo at a peer, one after another, in order of integration. The peer stays as it
/// is: a second one of its site is made of its journal, in the time and memory that this takes, and makes the steps. What the
/// peer holds it doesn't hold. A step that is refused there undoes nothing.
///
/// Fails where memory is wanting.
pub fn undone_by(alloc: Global, peer: &Peer, steps: &[Step]) -> Result<Vec<Name>, NoMemory>
    ensures { IfOk result (λ names. names.items ≡ names_undone_by peer.now steps.now) }
{
    let mut second = second_of(alloc, peer)?;
    let undone = undone_behind(alloc, peer, &mut second, steps);
    drop(second);
    undone
}
