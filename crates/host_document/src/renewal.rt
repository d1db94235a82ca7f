//! The file of a renewal.
ghost use Rattle.std.specs.Prelude.{◌≡◌, false, IfOk, IsErrOf};
ghost use Rattle.host_renewal.specs.declared.fault.RenewalFault.{RenewalFault};
ghost use Rattle.host_renewal.specs.Faults.{is_limit};
ghost use Rattle.host_renewal.specs.Room.{IsTooLong, IsTooRuled};
ghost use Rattle.host_interface.specs.Renewed.{IsSealOfRenewal};

use host_renewal::{RenewalFault, make_renewal};
use host_seal::Seal;
use host_store::StoreKeeper;
use peer_core::Peer;
use peer_disk::{Disk, FileDisk};
use peer_store::StoreFault;
use std::alloc::Global;

// Why there is no store for a renewal.
fn no_store(fault: StoreFault) -> RenewalFault
    ensures { is_limit result ≡ false }
{
    match fault {
        StoreFault::NoMemory => RenewalFault::NoMemory,
        _ => RenewalFault::DiskFault,
    }
}

// Makes a renewal of a peer on an empty disk, saves it, and gives its seal.
fn renewal_on<D: Disk + Drop>(alloc: Global, disk: D, old: &Peer) -> Result<Seal, RenewalFault>
    ensures renewed { IfOk result (λ seal. IsSealOfRenewal old.now seal) }
    ensures too_many_pieces { IsErrOf result RenewalFault.TooManyPieces → IsTooLong old.now }
    ensures too_many_entries { IsErrOf result RenewalFault.TooManyEntries → IsTooRuled old.now }
{
    match StoreKeeper::open(alloc, disk) {
        Ok(mut keeper) => {
            let made = make_renewal(alloc, old, &mut keeper);
            drop(keeper);
            made
        }
        Err(fault) => Err(no_store(fault)),
    }
}

/// Makes a renewal of a peer in a file that is empty or isn't there, saves it, and gives its seal.
pub(crate) fn renewal_in(rt: &HostRuntime, path: String, old: &Peer) -> Result<Seal, RenewalFault>
    ensures renewed { IfOk result (λ seal. IsSealOfRenewal old.now seal) }
    ensures too_many_pieces { IsErrOf result RenewalFault.TooManyPieces → IsTooLong old.now }
    ensures too_many_entries { IsErrOf result RenewalFault.TooManyEntries → IsTooRuled old.now }
{
    renewal_on(rt.alloc(), FileDisk::new(rt, path), old)
}
