//! A file that a crash may have left.
ghost use Rattle.std.specs.Prelude.{◌≡◌, ◌<◌, ◌≤◌, ◌^◌, ℕ, List, [], IfOk, IfSome, OnOk, IsErrOf, take, length};
ghost use Rattle.edit_io.specs.Causes.{Rose};
ghost use Rattle.peer_disk.specs.Disk.{Only, LeavesOnly};
ghost use Rattle.peer_disk.specs.Records.{file_head, HasHead, gate_place, bytes_of_each};
ghost use Rattle.peer_disk.specs.Loading.{Loads};

use crate::disk::Disk;
use crate::fault::LoadFault;
use crate::layout::FIRST_BYTE;
use crate::walk::{Loaded, parse};
use std::alloc::{AllocError, Global};

/// So many bytes are read at once.
const CHUNK: usize = 1 << 16;

// Room for so many bytes.
fn buffer(alloc: Global, len: usize) -> Result<Vec<u8>, AllocError>
    ensures { IfOk result (λ bytes. length bytes.items ≡ len) }
{
    let mut bytes = Vec::new(alloc);
    bytes.resize(len, 0)?;
    Ok(bytes)
}

// All bytes of the file.
fn read_whole<D: Disk>(alloc: Global, disk: &mut D) -> Result<Vec<u8>, LoadFault>
    ensures bytes { IfOk result (λ bytes. IfSome (D.seen disk.old) (λ file. bytes.items ≡ file)) }
    ensures seen { D.seen disk.new ≡ D.seen disk.old }
    ensures crash { (left : List ℕ) → D.may_leave disk.new left → D.may_leave disk.old left }
    ensures any_moment { LeavesOnly D.moment D.left_since disk.old disk.new (D.may_leave disk.old) }
    ensures failed { IsErrOf result LoadFault.DiskFault → Rose (D.faults disk.old) (D.faults disk.new) }
    ensures faults { D.faults disk.old ≤ D.faults disk.new }
    ensures no_head { IsErrOf result LoadFault.NoHead → ⊥ }
{
    let mut chunk = buffer(alloc, CHUNK)?;
    let mut bytes = Vec::new(alloc);
    'chunks: loop {
        let count = disk.read(bytes.len() as u64, &mut chunk)?;
        if count == 0 {
            return Ok(bytes);
        }
        bytes.extend_from_slice(&chunk[..count])?;
    }
}

// What a file of this site begins with.
fn head_of(site: u16) -> [u8; 3]
    ensures { result ≡ file_head site }
{
    let [high, low] = site.to_be_bytes();
    [FIRST_BYTE, high, low]
}

/// Reads the bodies of a file of this site that a crash may have left. It changes nothing on the disk.
///
/// First it syncs, so that what is read is what each later crash leaves. It takes time and memory in the
/// length of the file.
pub fn load<D: Disk>(alloc: Global, disk: &mut D, site: u16) -> Result<Loaded, LoadFault>
    ensures bodies { IfOk result (λ loaded. IfSome (D.seen disk.old) (Loads site loaded)) }
    ensures no_head { IsErrOf result LoadFault.NoHead → IfSome (D.seen disk.old) (λ file. ¬ HasHead site file) }
    ensures seen { D.seen disk.new ≡ D.seen disk.old }

    // The gate behind the last body stands at a place that a number of 64 bits holds.
    ensures room { IfOk result (λ loaded. gate_place (bytes_of_each loaded.bodies.items) < 2 ^ 64) }

    // From then on a crash leaves what was read.
    ensures durable { IfOk result (λ _. IfSome (D.seen disk.new) (λ file. Only file (D.may_leave disk.new))) }

    // A crash at any moment of the call leaves what one before it might have left.
    ensures any_moment { LeavesOnly D.moment D.left_since disk.old disk.new (D.may_leave disk.old) }
    ensures failed { IsErrOf result LoadFault.DiskFault → Rose (D.faults disk.old) (D.faults disk.new) }
    ensures faults { D.faults disk.old ≤ D.faults disk.new }
{
    disk.sync()?;
    let bytes = read_whole(alloc, disk)?;
    let Some(rest) = bytes.strip_prefix(&head_of(site)) else {
        return Err(LoadFault::NoHead);
    };
    Ok(parse(alloc, rest)?)
}
