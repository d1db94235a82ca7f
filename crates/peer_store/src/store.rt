//! A peer that is kept in a file.
ghost use Rattle.std.specs.Prelude.{◌≡◌, ◌<◌, ◌≤◌, ◌++◌, ◌∷◌, [], ℕ, List, IfSome, IfOk, IfErr, OnOk, OnErr, IsSome, IsTrue, IsErrOf, true, false, length, take};
ghost use Rattle.std.specs.declared.option.Option.{Option};
ghost use Rattle.edit_io.specs.Causes.{Rose};
ghost use Rattle.peer_disk.specs.Disk.{Only, LeavesOnly};
ghost use Rattle.peer_disk.specs.Records.{records};
ghost use Rattle.peer_step.specs.declared.step.Step.{Step};
ghost use Rattle.peer_core.specs.Peer.{fresh_peer};
ghost use Rattle.peer_core.specs.Answers.{answer_of};
ghost use Rattle.peer_core.specs.After.{peer_after};
ghost use Rattle.peer_store.specs.Steps.{changes, if_changing, is_look};
ghost use Rattle.peer_store.specs.Store.{StandsWithOrWithout, StandsForNoneIfAny, IsSaved, IsOnDisk, IsAhead, HasMessages, safe_messages, HasGate};
ghost use Rattle.peer_store.specs.Faults.{refusal_of, MayFailMaking, MayFailOpening, IsLeftBy, IsNotMadeFor, IsUnsavedBy};

use crate::fault::StoreFault;
use crate::limits::MAX_GATE;
use crate::replay::{Replayed, replay_file};
use crate::stepped::keep_step;
use edit_io::Failed;
use element_name::NoMemory;
use peer_core::Peer;
use peer_disk::{Disk, Records};
use peer_step::{Answer, Step};
use std::alloc::Global;
use std::marker::Model;

/// A peer whose changing steps are kept on a disk, which each call that writes is lent.
///
/// A step is made in memory and saved later, with all others that aren't ([`step`](Store::step),
/// [`save`](Store::save)), or made and saved at once ([`put`](Store::put)). Nothing is known of what a call does to
/// another disk than that of the calls before.
pub struct Store {
    alloc: Global,
    peer: Peer,
    // Where the file's last gate stands.
    place: u64,
    // Whether the disk failed while steps were saved.
    spent: bool,
    // The records of the steps that aren't saved.
    unsaved: Records,
    // How many messages the journal had when it was saved.
    saved: u32,
}

// By hand, so that a store goes by one call: a crate above proves nothing of its parts.
impl Drop for Store {
    fn drop(self) {
        let Store {
            alloc: _,
            peer,
            place: _,
            spent: _,
            unsaved,
            saved: _,
        } = self;
        drop(peer);
        drop(unsaved);
    }
}

impl Model for Store {
    ghost use Rattle.std.specs.Prelude.{◌+◌, length};
    ghost use Rattle.peer_disk.specs.Records.{records};
    ghost use Rattle.peer_store.specs.Store.{Saved, FitsInFile};

    ghost Value = { Saved };

    ghost view = { λ s. record { peer = s.peer; place = s.place + length (records s.unsaved); spent = s.spent; unsaved = s.unsaved; safe = s.saved } };

    ghost invariant = { λ s. FitsInFile s.place s.unsaved };
}

// Whether the step looks alone.
fn is_look(step: &Step) -> bool
    ensures { result ≡ is_look step.now }
{
    matches!(step, Step::Look { .. } | Step::Show)
}

// The store of a peer whose steps are all in a file with its last gate there, with room for those that come.
fn store_over(alloc: Global, peer: Peer, place: u64, unsaved: Records) -> Store
    requires { unsaved ≡ [] }
    ensures { result ≡ record { peer = peer; place = place; spent = false; unsaved = []; safe = length peer.journal } }
{
    let saved = peer.journal_len();
    Store {
        alloc,
        peer,
        place,
        spent: false,
        unsaved,
        saved,
    }
}

// Room for the steps that come.
fn no_records(alloc: Global) -> Result<Records, NoMemory>
    ensures { IfOk result (λ r. r ≡ []) }
{
    Ok(Records::new(alloc)?)
}

impl Store {
    /// Makes a store of the site's fresh peer on an empty disk.
    ///
    /// All memory is taken before a byte is written. Where the disk failed it may have any of the bytes: it is to be
    /// emptied, and made again.
    pub fn create<D: Disk>(alloc: Global, disk: &mut D, site: u16) -> Result<Store, StoreFault>
        requires { IfSome (D.seen disk.old) (λ file. file ≡ []) }

        // The disk keeps the fresh peer, and each crash leaves that.
        ensures saved { IfOk result (λ store. IsSome (D.seen disk.old) → IsSaved site [] store (D.seen disk.new) (D.may_leave disk.new)) }
        ensures fresh { IfOk result (λ store. store.peer ≡ fresh_peer site) }
        ensures unspent { IfOk result (λ store. store.spent ≡ false) }
        ensures gate { IfOk result (λ store. HasGate store (D.seen disk.new)) }

        // A crash at any moment leaves an empty disk, no store of this site, or that of its fresh peer.
        ensures any_moment { Only [] (D.may_leave disk.old) → LeavesOnly D.moment D.left_since disk.old disk.new (StandsForNoneIfAny site) }

        // It gives up for want of memory, before it has asked the disk, or where the disk failed.
        ensures failed { IfErr result (λ fault. MayFailMaking fault (D.faults disk.old) (D.faults disk.new)) }
        ensures unchanged { IsErrOf result StoreFault.NoMemory → disk.new ≡ disk.old }
        ensures faults { D.faults disk.old ≤ D.faults disk.new }
    {
        let unsaved = no_records(alloc)?;
        let peer = Peer::new(alloc, site)?;
        match peer_disk::create(disk, site) {
            Ok(place) => Ok(store_over(alloc, peer, place, unsaved)),
            Err(Failed) => {
                drop(peer);
                Err(StoreFault::DiskFault)
            }
        }
    }

    /// Opens the store of a site that a crash may have left, and gives its peer. It writes nothing.
    ///
    /// It takes time and memory in the length of the file, and the time of the steps.
    #[tactic(auto, using(crate::proofs::Opening::saved_again, crate::proofs::Opening::has_gate, crate::proofs::Opening::closed_loads, crate::proofs::Opening::no_store_told, crate::proofs::Opening::unread))]
    pub fn open<D: Disk>(alloc: Global, disk: &mut D, site: u16) -> Result<Store, StoreFault>
        // The disk keeps the peer as the steps that its store stands for, and each crash leaves that.
        ensures saved { IfOk result (λ store. IsSome (D.seen disk.old) → (steps : List Step) × IsSaved site steps store (D.seen disk.new) (D.may_leave disk.new)) }
        ensures unspent { IfOk result (λ store. store.spent ≡ false) }
        ensures gate { IfOk result (λ store. HasGate store (D.seen disk.new)) }

        // The file stays, and a crash at any moment leaves what one before might have left.
        ensures seen { D.seen disk.new ≡ D.seen disk.old }
        ensures any_moment { LeavesOnly D.moment D.left_since disk.old disk.new (D.may_leave disk.old) }
        ensures failed { IfErr result (λ fault. MayFailOpening fault site (D.seen disk.old) (D.faults disk.old) (D.faults disk.new)) }
        ensures faults { D.faults disk.old ≤ D.faults disk.new }
    {
        let loaded = peer_disk::load(alloc, disk, site)?;
        let unsaved = no_records(alloc)?;
        let Replayed { peer, place } = replay_file(alloc, site, &loaded)?;
        Ok(store_over(alloc, peer, place, unsaved))
    }

    /// The peer, after all steps that were put.
    pub fn peer(&self) -> &Peer
        ensures { result.now ≡ self.now.peer }
    {
        &self.peer
    }

    // Why no step like this is put now, if it isn't.
    fn refusal(&self, step: &Step) -> Option<StoreFault>
        ensures { result ≡ refusal_of self.now step.now }
    {
        if self.spent {
            return Some(StoreFault::Spent);
        }
        if self.place + self.unsaved.grows_by() > MAX_GATE && !is_look(step) {
            return Some(StoreFault::StoreFull);
        }
        None
    }

    /// Makes a step in memory and answers it. A step that changed the peer isn't saved yet; nothing that comes of it is
    /// to be sent before a [`save`](Store::save) has answered `Ok`.
    ///
    /// It takes the time of the step, and memory for its body.
    pub fn step(&mut self, step: Step) -> Result<Answer, StoreFault>
        ensures answer { IfOk result (λ answer. answer ≡ answer_of self.old.peer step) }
        ensures after { OnOk result (self.new.peer ≡ peer_after self.old.peer step) }
        ensures unspent { OnOk result (self.new.spent ≡ false) }

        // The peer is ahead of its store by this step too, if it changes the peer.
        ensures ahead { OnOk result ((site : ℕ) (steps more : List Step) → IsAhead site steps more self.old → IsAhead site steps (more ++ if_changing self.old.peer step) self.new) }
        ensures quiet { changes self.old.peer step ≡ false → self.new ≡ self.old }
        ensures longer { OnOk result (changes self.old.peer step ≡ true → length (records self.old.unsaved) < length (records self.new.unsaved)) }
        ensures safe { self.new.safe ≡ self.old.safe }

        // When it gives up, and that the store is then as before.
        ensures refused { IfSome (refusal_of self.old step) (λ fault. result ≡ Err fault) }
        ensures cause { IfErr result (λ fault. IsNotMadeFor fault (refusal_of self.old step)) }
        ensures unchanged { OnErr result (self.new ≡ self.old) }
        ensures gate { (seen : Option (List ℕ)) → HasGate self.old seen → HasGate self.new seen }
    {
        if let Some(fault) = self.refusal(&step) {
            return Err(fault);
        }
        crate::laws::short_bodies();
        let answer = keep_step(self.alloc, &mut self.peer, &mut self.unsaved, step)?;
        Ok(answer)
    }

    /// Saves all steps that aren't saved: at `Ok` they are on the disk.
    ///
    /// It takes two writes and two syncs, however many steps there are, and none where there are none.
    /// Where the disk failed the store is to be opened again: either all of the steps are in it or none is.
    pub fn save<D: Disk>(&mut self, disk: &mut D) -> Result<(), StoreFault>
        requires { HasGate self.old (D.seen disk.old) }

        // From then on each crash leaves all steps.
        ensures saved { OnOk result ((site : ℕ) (steps more : List Step) → IsAhead site steps more self.old → IsOnDisk site steps (D.seen disk.old) (D.may_leave disk.old)
            → IsSaved site (steps ++ more) self.new (D.seen disk.new) (D.may_leave disk.new)) }
        ensures quiet { self.old.unsaved ≡ [] → (disk.new ≡ disk.old) × (self.new ≡ self.old) }
        ensures unspent { OnOk result (self.new.spent ≡ false) }
        ensures peer { self.new.peer ≡ self.old.peer }

        // A crash at any moment of the call leaves the steps that were saved, with all others or with none of them, and so the
        // messages that were saved.
        ensures any_moment { (site : ℕ) (steps more : List Step) → IsAhead site steps more self.old → IsOnDisk site steps (D.seen disk.old) (D.may_leave disk.old)
            → LeavesOnly D.moment D.left_since disk.old disk.new (StandsWithOrWithout site steps more) }
        ensures safe { (site : ℕ) (steps more : List Step) → IsAhead site steps more self.old → IsOnDisk site steps (D.seen disk.old) (D.may_leave disk.old)
            → LeavesOnly D.moment D.left_since disk.old disk.new (HasMessages site (safe_messages self.old)) }

        // When it gives up, and what is left then.
        ensures left { IfErr result (λ fault. IsUnsavedBy fault self.old self.new disk.old disk.new) }
        ensures failed { IsErrOf result StoreFault.DiskFault → Rose (D.faults disk.old) (D.faults disk.new) }
        ensures faults { D.faults disk.old ≤ D.faults disk.new }
        ensures gate { HasGate self.new (D.seen disk.new) }
    {
        if self.spent {
            return Err(StoreFault::Spent);
        }
        if self.unsaved.is_empty() {
            return Ok(());
        }
        match peer_disk::put_all(disk, self.place, &self.unsaved) {
            Ok(next) => {
                self.place = next;
                self.unsaved.clear();
                self.saved = self.peer.journal_len();
                Ok(())
            }
            Err(fail) => {
                self.spent = true;
                Err(fail.into())
            }
        }
    }

    /// How many messages of the peer's journal are saved: its first ones, which each crash leaves. What a host sends of
    /// the journal is to stand below.
    pub fn saved(&self) -> u32
        ensures count { result ≡ self.now.safe }
        ensures safe { (site : ℕ) (steps more : List Step) → IsAhead site steps more self.now → (file : List ℕ) → StandsWithOrWithout site steps more file
            → HasMessages site (take result self.now.peer.journal) file }
    {
        self.saved
    }

    /// How many bytes the file grows by at the next save: 0 where no step is unsaved.
    pub fn unsaved_len(&self) -> u64
        ensures { result ≡ length (records self.now.unsaved) }
    {
        self.unsaved.grows_by()
    }

    /// Makes a step and answers it. A step that changed the peer is on the disk when this answers it; another writes
    /// nothing.
    ///
    /// It takes the time of the step, and of two writes and two syncs where the step changed the peer.
    /// Where the disk failed the peer has made the step, and the store is to be opened again: the step may be in it or
    /// not.
    pub fn put<D: Disk>(&mut self, disk: &mut D, step: Step) -> Result<Answer, StoreFault>
        requires { HasGate self.old (D.seen disk.old) }

        ensures answer { IfOk result (λ answer. answer ≡ answer_of self.old.peer step) }
        ensures after { OnOk result (self.new.peer ≡ peer_after self.old.peer step) }
        ensures unspent { OnOk result (self.new.spent ≡ false) }

        // From then on each crash leaves the steps with this one, if it changes the peer; if not, nothing is touched.
        ensures saved { OnOk result ((site : ℕ) (steps : List Step) → IsSaved site steps self.old (D.seen disk.old) (D.may_leave disk.old)
            → IsSaved site (steps ++ if_changing self.old.peer step) self.new (D.seen disk.new) (D.may_leave disk.new)) }
        ensures quiet { changes self.old.peer step ≡ false → (disk.new ≡ disk.old) × (self.new ≡ self.old) }

        // A crash at any moment of the call leaves the steps from before it, with this one or without.
        ensures any_moment { (site : ℕ) (steps : List Step) → IsSaved site steps self.old (D.seen disk.old) (D.may_leave disk.old)
            → LeavesOnly D.moment D.left_since disk.old disk.new (StandsWithOrWithout site steps (if_changing self.old.peer step)) }

        // When it gives up, and what is left then.
        ensures refused { IfSome (refusal_of self.old step) (λ fault. result ≡ Err fault) }
        ensures left { IfErr result (λ fault. IsLeftBy fault step self.old self.new disk.old disk.new) }
        ensures failed { IsErrOf result StoreFault.DiskFault → Rose (D.faults disk.old) (D.faults disk.new) }
        ensures faults { D.faults disk.old ≤ D.faults disk.new }
        ensures gate { HasGate self.new (D.seen disk.new) }
    {
        let unsaved = self.unsaved_len();
        let answer = self.step(step)?;
        if self.unsaved_len() == unsaved {
            return Ok(answer);
        }
        match self.save(disk) {
            Ok(()) => Ok(answer),
            Err(fault) => {
                drop(answer);
                Err(fault)
            }
        }
    }
}
