//! A keeper over a store.
ghost use Rattle.std.specs.Prelude.{◌≡◌, false, IfOk, IsSome, List};
ghost use Rattle.peer_step.specs.declared.step.Step.{Step};
ghost use Rattle.peer_store.specs.Store.{HasGate, IsSaved};
ghost use Rattle.host_store.specs.Kept.{KeepsJournal, IsHeldIfTold};

use ghost_list::GhostList;
use host_core::{KeepFail, Keeper};
use peer_core::Peer;
use peer_disk::Disk;
use peer_step::{Answer, Step};
use peer_store::{Store, StoreFault};
use std::alloc::Global;

// The site of the administrator.
const ADMINISTRATOR: u16 = 0;

/// A store of a site with its disk. Steps are made in memory, and saved all at once.
pub struct StoreKeeper<D: Disk> {
    site: u16,
    store: Store,
    disk: D,
    failed: bool,
    // Whether the disk told its bytes at the start.
    told: GhostList<bool>,
    ghost spent: { store.spent ≡ failed },
    ghost gate: { ∥ HasGate store (D.seen disk) ∥₁ },
    ghost held: { ∥ IsHeldIfTold site told.items store (D.seen disk) (D.may_leave disk) ∥₁ },
}

// By hand, so that it goes by one call: a crate above proves nothing of its parts.
impl<D: Disk + Drop> Drop for StoreKeeper<D> {
    fn drop(self) {
        let StoreKeeper {
            site: _,
            store,
            disk,
            failed: _,
            told,
        } = self;
        drop(store);
        drop(disk);
        drop(told);
    }
}

// The store of a site on this disk: a new one where it is empty.
fn open_store<D: Disk>(alloc: Global, disk: &mut D, site: u16) -> Result<Store, StoreFault>
    ensures unspent { IfOk result (λ store. store.spent ≡ false) }
    ensures gate { IfOk result (λ store. HasGate store (D.seen disk.new)) }
    ensures saved { IfOk result (λ store. IsSome (D.seen disk.old) → (steps : List Step) × IsSaved site steps store (D.seen disk.new) (D.may_leave disk.new)) }
{
    let Ok(size) = disk.len() else {
        return Err(StoreFault::DiskFault);
    };
    if size == 0 {
        Store::create(alloc, disk, site)
    } else {
        Store::open(alloc, disk, site)
    }
}

impl<D: Disk + Drop> StoreKeeper<D> {
    /// The keeper of the store of the administrator on this disk: a new one where the disk is empty.
    pub fn open(alloc: Global, disk: D) -> Result<Self, StoreFault>
        // The whole journal is kept, and nothing else.
        ensures kept { IfOk result (λ k. KeepsJournal k.site k.told.items (D.may_leave k.disk) k.store.peer.journal k.store.peer.journal) }
        ensures site { IfOk result (λ k. k.site ≡ ADMINISTRATOR) }
    {
        StoreKeeper::open_at(alloc, disk, ADMINISTRATOR)
    }

    /// The keeper of the store of a site on this disk: a new one where the disk is empty.
    pub fn open_at(alloc: Global, mut disk: D, site: u16) -> Result<Self, StoreFault>
        // The whole journal is kept, and nothing else.
        ensures kept { IfOk result (λ k. KeepsJournal k.site k.told.items (D.may_leave k.disk) k.store.peer.journal k.store.peer.journal) }
        ensures site { IfOk result (λ k. k.site ≡ site) }
    {
        let none: GhostList<bool> = GhostList::new();
        let told = none.changed(&disk);
        let store = open_store(alloc, &mut disk, site)?;
        Ok(StoreKeeper {
            site,
            store,
            disk,
            failed: false,
            told,
        })
    }
}

impl<D: Disk + Drop> Keeper for StoreKeeper<D> {
    ghost use Rattle.host_store.specs.Kept.{KeepsJournal};

    ghost peer = { λ k. k.store.peer };

    ghost keeps = { λ k first. KeepsJournal k.site k.told.items (D.may_leave k.disk) k.store.peer.journal first };

    fn peer(&self) -> &Peer {
        self.store.peer()
    }

    fn make(&mut self, step: Step) -> Result<Answer, KeepFail> {
        if self.failed {
            return Err(KeepFail::Failed);
        }
        match self.store.step(step) {
            Ok(answer) => Ok(answer),
            Err(StoreFault::NoMemory) => Err(KeepFail::NoMemory),
            Err(_) => Err(KeepFail::Full),
        }
    }

    fn save(&mut self) -> Result<(), KeepFail> {
        if self.failed {
            return Err(KeepFail::Failed);
        }
        peer_store::laws::one_list();
        match self.store.save(&mut self.disk) {
            Ok(()) => Ok(()),
            Err(StoreFault::DiskFault) => {
                self.failed = true;
                Err(KeepFail::Failed)
            }
            Err(_) => Err(KeepFail::Failed),
        }
    }
}
