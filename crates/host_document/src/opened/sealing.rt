//! What was sealed of a document, and its next seal.
ghost use Rattle.std.specs.Prelude.{◌≡◌, ◌⊎◌, Some, IfOk, IfErr, IfSome, OnOk};
ghost use Rattle.host_core.specs.Past.{saved_journal};
ghost use Rattle.host_seal.specs.Seals.{IsSealed};
ghost use Rattle.host_interface.specs.declared.fault.OpenFault.{OpenFault};
ghost use Rattle.host_interface.specs.Sealing.{IsOpenedBy, IsSealOf};
ghost use Rattle.host_document.specs.Sealing.{open_fault, seal_open_fault};

use super::Opened;
use element_name::NoMemory;
use host_interface::OpenFault;
use host_link::Identity;
use host_seal::{Seal, SealFault, Sealer};
use std::alloc::Global;
use std::mem;

// Why a document isn't opened whose journal isn't taken for the one that was sealed, by how many messages were found and
// how many were sealed.
fn open_fault(found: u32, sealed: u32, fault: SealFault) -> OpenFault
    ensures { result ≡ open_fault found sealed fault }
{
    match fault {
        SealFault::Fewer => OpenFault::Fewer { found, sealed },
        SealFault::Others => OpenFault::Others { found, sealed },
        SealFault::NoMemory => OpenFault::NoMemory,
    }
}

impl<'a> Opened<'a> {
    // Looks whether what is saved begins with what was sealed, and goes on from there.
    fn look_for(&mut self, alloc: Global, seal: &Seal) -> Result<(), OpenFault>
        ensures sealed { OnOk result (IsSealed seal.now (saved_journal self.old)) }
        ensures fault { IfErr result (λ fault. (fault ≡ OpenFault.NoMemory) ⊎ (seal_open_fault seal.now (saved_journal self.old) ≡ Some fault)) }
        ensures unchanged { self.new ≡ self.old }
    {
        let saved = self.host.register().saved();
        match Sealer::behind(alloc, self.host.peer(), saved, seal) {
            Ok(sealer) => {
                drop(mem::replace(&mut self.sealer, sealer));
                self.sealed = seal.items;
                Ok(())
            }
            Err(fault) => Err(open_fault(saved, seal.items, fault)),
        }
    }

    // This document, if what is saved begins with what was sealed.
    fn looked_at(mut self, alloc: Global, seal: &Seal) -> Result<Opened<'a>, OpenFault>
        ensures { IfOk result (λ opened. IsSealed seal.now (saved_journal opened)) }
    {
        match self.look_for(alloc, seal) {
            Ok(()) => Ok(self),
            Err(fault) => {
                drop(self);
                Err(fault)
            }
        }
    }

    /// Opens the document of this identity, whose steps stand in a file, unless what is saved doesn't begin with what was
    /// sealed. It takes the time of its steps.
    pub(crate) fn open(
        rt: &'a HostRuntime,
        path: String,
        identity: Identity,
        seal: Option<Seal>,
    ) -> Result<Opened<'a>, OpenFault>
        ensures { IfOk result (λ opened. IsOpenedBy seal (Some opened)) }
    {
        let opened = Opened::open_steps(rt, path, identity)?;
        match seal {
            Some(seal) => opened.looked_at(rt.alloc(), &seal),
            None => Ok(opened),
        }
    }

    /// The seal of what is saved.
    pub(crate) fn seal(&mut self, alloc: Global) -> Result<Seal, NoMemory>
        ensures seal { IfOk result (λ seal. IsSealOf seal self.old) }
        ensures unchanged { self.new ≡ self.old }
    {
        let saved = self.host.register().saved();
        self.sealer.follow(alloc, self.host.peer(), saved)?;
        Ok(self.sealer.seal())
    }

    /// The seal of what is saved, if the last one that was noted lacks some of it.
    pub(crate) fn next_seal(&mut self, alloc: Global) -> Result<Option<Seal>, NoMemory>
        ensures seal { IfOk result (λ found. IfSome found (λ seal. IsSealOf seal self.old)) }
        ensures unchanged { self.new ≡ self.old }
    {
        if self.sealed == self.saved() {
            return Ok(None);
        }
        let seal = self.seal(alloc)?;
        Ok(Some(seal))
    }

    /// Notes a seal that stands on the disk.
    pub(crate) fn note_sealed(&mut self, seal: &Seal)
        ensures { self.new ≡ self.old }
    {
        self.sealed = seal.items;
    }
}
