//! What makes the seals of a journal that grows.
ghost use Rattle.std.specs.Prelude.{◌≡◌, ◌⊎◌, ◌++◌, ◌∷◌, [], ◌<◌, ◌≤◌, Some, IfOk, IfErr, OnOk, OnErr, length, take, bytes_eq};
ghost use Rattle.edit_frame.specs.declared.frame.Frame.{Frame};
ghost use Rattle.edit_frame.specs.Spelling.{spelling};
ghost use Rattle.host_seal.specs.declared.seal.SealFault.{SealFault};
ghost use Rattle.host_seal.specs.Seals.{seal_of, seal_fault, IsBeginning, IsSealed};

use crate::seal::{Seal, SealFault};
use edit_frame::{Frame, encode};
use edit_message::Message;
use element_name::NoMemory;
use ghost_list::GhostList;
use peer_core::{JournalItem, Peer};
use sha2::{Digest, Sha256};
use std::alloc::Global;
use std::marker::Model;

/// The digest of a journal's first messages, which goes on as the journal grows: so a seal costs what is new since the last
/// one. Contracts see the messages that it has taken.
#[derive(Drop)]
pub struct Sealer {
    hasher: Sha256,
    // How many messages it has taken.
    items: u32,
    taken: GhostList<Message>,
}

impl Model for Sealer {
    ghost use Rattle.std.specs.Prelude.{List};
    ghost use Rattle.edit_message.specs.declared.message.Message.{Message};
    ghost use Rattle.host_seal.specs.Frames.{HoldsFrames};

    ghost Value = { List Message };

    ghost view = { λ s. s.taken.items };

    ghost invariant = { λ s. HoldsFrames s.hasher s.items s.taken.items };
}

// The frame of a message of a journal.
fn item_frame(alloc: Global, item: &JournalItem<'_>) -> Result<Vec<u8>, NoMemory>
    ensures { IfOk result (λ bytes. bytes.items ≡ spelling (Frame.Item item.now)) }
{
    let frame = Frame::Item(item.copied()?);
    let mut bytes = Vec::new(alloc);
    let put = encode(alloc, &frame, &mut bytes);
    drop(frame);
    put?;
    Ok(bytes)
}

impl Sealer {
    /// One that has taken nothing.
    pub fn new() -> Sealer
        ensures { result ≡ [] }
    {
        Sealer {
            hasher: Sha256::new(),
            items: 0,
            taken: GhostList::new(),
        }
    }

    /// How many messages it has taken.
    pub fn items(&self) -> u32
        ensures { result ≡ length self.now }
    {
        self.items
    }

    // Takes one more message.
    fn take(&mut self, alloc: Global, item: &JournalItem<'_>) -> Result<(), NoMemory>
        requires { length self.old < u32.MAX }
        ensures taken { OnOk result (self.new ≡ self.old ++ item.now ∷ []) }
        ensures left { OnErr result (self.new ≡ self.old) }
    {
        let frame = item_frame(alloc, item)?;
        self.hasher.update(frame.as_slice());
        self.items += 1;
        self.taken = self.taken.changed(item);
        Ok(())
    }

    /// Takes what it lacks of a journal's first messages, so many. Takes the time of what it lacks, and memory for one frame.
    /// Where that is wanting it has taken a part.
    pub fn follow(&mut self, alloc: Global, peer: &Peer, items: u32) -> Result<(), NoMemory>
        requires within { items ≤ length peer.now.journal }
        requires first { IsBeginning self.old (take items peer.now.journal) }
        ensures all { OnOk result (self.new ≡ take items peer.now.journal) }
        ensures part { IsBeginning self.new (take items peer.now.journal) }
    {
        for place in self.items..items {
            let Some(item) = peer.journal(place) else {
                unreachable!()
            };
            self.take(alloc, &item)?;
        }
        Ok(())
    }

    /// The seal of what it has taken. Takes constant time, and no memory.
    pub fn seal(&self) -> Seal
        ensures { result ≡ seal_of self.now }
    {
        let Ok(hasher) = self.hasher.clone() else {
            unreachable!()
        };
        Seal {
            items: self.items,
            digest: hasher.finalize(),
        }
    }

    // Whether the digest of a seal is that of what it has taken.
    fn has_digest(&self, seal: &Seal) -> bool
        ensures { result ≡ bytes_eq (seal_of self.now).digest seal.now.digest }
    {
        let own = self.seal();
        own.digest.as_slice() == seal.digest.as_slice()
    }

    /// One that has taken what was sealed, if a journal's first messages, so many, begin with that. Takes the time of what
    /// was sealed, and memory for one frame.
    pub fn behind(alloc: Global, peer: &Peer, items: u32, seal: &Seal) -> Result<Sealer, SealFault>
        requires { items ≤ length peer.now.journal }
        ensures taken { IfOk result (λ sealer. IsBeginning sealer (take items peer.now.journal)) }
        ensures sealed { OnOk result (IsSealed seal.now (take items peer.now.journal)) }
        ensures fault { IfErr result (λ fault. (fault ≡ SealFault.NoMemory) ⊎ (seal_fault seal.now (take items peer.now.journal) ≡ Some fault)) }
    {
        if items < seal.items {
            return Err(SealFault::Fewer);
        }
        let mut sealer = Sealer::new();
        sealer.follow(alloc, peer, seal.items)?;
        if sealer.has_digest(seal) {
            Ok(sealer)
        } else {
            Err(SealFault::Others)
        }
    }
}
