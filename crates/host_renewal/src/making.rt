//! A renewal that a keeper makes.
ghost use Rattle.std.specs.Prelude.{◌≡◌, List, false, IfOk, IfErr, OnOk, IsErrOf};
ghost use Rattle.edit_message.specs.declared.message.Message.{Message};
ghost use Rattle.peer_renewal.specs.Renewal.{IsRenewalOf};
ghost use Rattle.host_seal.specs.Seals.{seal_of};
ghost use Rattle.host_renewal.specs.declared.fault.RenewalFault.{RenewalFault};
ghost use Rattle.host_renewal.specs.Faults.{is_limit};
ghost use Rattle.host_renewal.specs.Room.{IsTooLong, IsTooRuled};
ghost use Rattle.host_renewal.specs.Steps.{insert_anew, step_anew};

use crate::fault::RenewalFault;
use coop_request::{Edit, Request};
use edit_message::Message;
use element_name::NoMemory;
use host_core::Keeper;
use host_seal::{Seal, Sealer};
use peer_core::Peer;
use peer_renewal::{is_renewal, renew};
use peer_step::{LocalEdit, Step};
use std::alloc::Global;

// The step that puts the piece of a request at a place, if that puts one.
fn insert_anew(request: Request, at: u32) -> Option<Step>
    ensures { result ≡ insert_anew at request.edit }
{
    match request.edit() {
        Edit::Insert { letter, .. } => Some(Step::Edit(LocalEdit::Insert { at, letter })),
        _ => None,
    }
}

// The step by which a peer whose text ends at this place makes a message of a renewal anew; none of another message.
fn step_anew(message: &Message, at: u32) -> Result<Option<Step>, NoMemory>
    ensures { IfOk result (λ step. step ≡ step_anew at message.now) }
{
    match message {
        Message::Coop(request) => Ok(insert_anew(*request, at)),
        Message::Admin(entry) => Ok(Some(Step::Administer(entry.op().copied()?))),
    }
}

// Has a keeper make a message of a renewal anew.
fn make_message<K: Keeper>(message: &Message, keeper: &mut K) -> Result<(), RenewalFault>
    ensures kept { (J : List Message) → K.keeps keeper.old J → K.keeps keeper.new J }
    ensures no_limit { IfErr result (λ fault. is_limit fault ≡ false) }
{
    let at = keeper.peer().shown_len();
    let Some(step) = step_anew(message, at)? else {
        return Err(RenewalFault::NotAlike);
    };
    drop(keeper.make(step)?);
    Ok(())
}

// The same of the message at a place of a renewal's journal.
fn make_item<K: Keeper>(new: &Peer, place: u32, keeper: &mut K) -> Result<(), RenewalFault>
    ensures kept { (J : List Message) → K.keeps keeper.old J → K.keeps keeper.new J }
    ensures no_limit { IfErr result (λ fault. is_limit fault ≡ false) }
{
    let Some(item) = new.journal(place) else {
        return Err(RenewalFault::NotAlike);
    };
    let message = item.copied()?;
    let made = make_message(&message, keeper);
    drop(message);
    made
}

// Has a keeper make all that a renewal has in its journal.
fn make_items<K: Keeper>(new: &Peer, keeper: &mut K) -> Result<(), RenewalFault>
    ensures kept { (J : List Message) → K.keeps keeper.old J → K.keeps keeper.new J }
    ensures no_limit { IfErr result (λ fault. is_limit fault ≡ false) }
{
    for place in 0..new.journal_len() {
        make_item(new, place, keeper)?;
    }
    Ok(())
}

// Has a keeper make a renewal of a peer, if one is found, whatever that comes to.
fn make_found<K: Keeper>(alloc: Global, old: &Peer, keeper: &mut K) -> Result<(), RenewalFault>
    ensures kept { (J : List Message) → K.keeps keeper.old J → K.keeps keeper.new J }
    ensures too_many_pieces { IsErrOf result RenewalFault.TooManyPieces → IsTooLong old.now }
    ensures too_many_entries { IsErrOf result RenewalFault.TooManyEntries → IsTooRuled old.now }
{
    let new = renew(alloc, old)?;
    let made = make_items(&new, keeper);
    drop(new);
    made
}

// Saves what a keeper made, if it is a renewal of a peer.
fn save_alike<K: Keeper>(alloc: Global, old: &Peer, keeper: &mut K) -> Result<(), RenewalFault>
    ensures renewal { OnOk result (IsRenewalOf old.now (K.peer keeper.new)) }
    ensures saved { OnOk result (K.keeps keeper.new (K.peer keeper.new).journal) }
    ensures kept { (J : List Message) → K.keeps keeper.old J → K.keeps keeper.new J }
    ensures no_limit { IfErr result (λ fault. is_limit fault ≡ false) }
{
    if !is_renewal(alloc, old, keeper.peer())? {
        return Err(RenewalFault::NotAlike);
    }
    keeper.save()?;
    Ok(())
}

// The seal of a peer's whole journal.
fn whole_seal(alloc: Global, peer: &Peer) -> Result<Seal, NoMemory>
    ensures { IfOk result (λ seal. seal ≡ seal_of peer.now.journal) }
{
    let mut sealer = Sealer::new();
    match sealer.follow(alloc, peer, peer.journal_len()) {
        Ok(()) => Ok(sealer.seal()),
        Err(NoMemory) => {
            drop(sealer);
            Err(NoMemory)
        }
    }
}

/// Has a keeper whose peer is a fresh one of the administrator's make a renewal of a peer and save it, and gives the seal of
/// that. What was made is compared with the old peer before it is saved. Where it gives up the keeper may have made a part, which isn't
/// saved unless the seal alone was wanting.
///
/// Takes the time of `renew` twice, and a save.
pub fn make_renewal<K: Keeper>(
    alloc: Global,
    old: &Peer,
    keeper: &mut K,
) -> Result<Seal, RenewalFault>
    ensures renewal { OnOk result (IsRenewalOf old.now (K.peer keeper.new)) }
    ensures saved { OnOk result (K.keeps keeper.new (K.peer keeper.new).journal) }
    ensures seal { IfOk result (λ seal. seal ≡ seal_of (K.peer keeper.new).journal) }
    ensures kept { (J : List Message) → K.keeps keeper.old J → K.keeps keeper.new J }
    ensures too_many_pieces { IsErrOf result RenewalFault.TooManyPieces → IsTooLong old.now }
    ensures too_many_entries { IsErrOf result RenewalFault.TooManyEntries → IsTooRuled old.now }
{
    make_found(alloc, old, keeper)?;
    save_alike(alloc, old, keeper)?;
    let seal = whole_seal(alloc, keeper.peer())?;
    Ok(seal)
}
