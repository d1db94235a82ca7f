//! The device and the peer of a file.
ghost use Rattle.std.specs.Prelude.{◌≡◌, length, IfOk};
ghost use Rattle.follow_main.specs.Marks.{if_ours, begun_at};

use crate::address::Key;
use crate::device::{Device, Mark};
use crate::output::write;
use crate::setting::Setting;
use crate::told::or_status;
use follow_talk::Talk;
use host_core::Keeper;
use host_store::StoreKeeper;
use line_engine::Status;
use peer_disk::FileDisk;
use peer_store::StoreFault;
use std::alloc::Global;

/// The keeper of a device's file.
pub(crate) type FileKeeper<'a> = StoreKeeper<FileDisk<'a>>;

// The status of a fault at opening.
fn status_of_fault(fault: StoreFault) -> Status {
    match fault {
        StoreFault::DiskFault => Status::DiskFault,
        StoreFault::Spent => Status::DiskFault,
        StoreFault::NotAStore(_) => Status::BadStore,
        StoreFault::StoreFull => Status::StoreFull,
        StoreFault::NoMemory => Status::NoMemory,
    }
}

// Tells from where on a file is no store.
fn tell_fault(rt: &HostRuntime, fault: StoreFault) {
    let StoreFault::NotAStore(offset) = fault else {
        return;
    };
    if let Ok(line) = format!(in rt.alloc(); "bad store {offset}\n") {
        let _ = write(rt, line.as_str().as_bytes());
    }
}

// The marks of a device that count at a peer: so many of its own requests are at the host, and it has so many messages of the
// host's journal. Where the peer has less than it had when the mark was made, that isn't its own.
fn marks_at(mark: Mark, length: u32) -> (u32, u32)
    ensures back { result.0 ≡ if_ours mark length mark.back }
    ensures known { result.1 ≡ if_ours mark length mark.known }
{
    if length >= mark.length {
        (mark.back, mark.known)
    } else {
        (0, 0)
    }
}

// A keeper's peer with the marks of its device.
fn talk_with<K: Keeper>(alloc: Global, keeper: K, mark: Mark) -> Result<Talk<K>, Status>
    requires { K.keeps keeper (K.peer keeper).journal }
    ensures { IfOk result (λ talk. talk.follower.outbox ≡ begun_at mark (K.peer keeper)) }
{
    let (back, known) = marks_at(mark, keeper.peer().journal_len());
    or_status(Talk::new(alloc, keeper, back, known))
}

// Opens the file of a device.
fn talk_of<'a>(
    rt: &'a HostRuntime,
    file: &str,
    device: &Device,
) -> Result<Talk<FileKeeper<'a>>, Status> {
    let alloc = rt.alloc();
    let Ok(name) = String::from_str(alloc, file) else {
        return Err(Status::NoMemory);
    };
    match StoreKeeper::open_at(alloc, FileDisk::new(rt, name), device.site) {
        Ok(keeper) => talk_with(alloc, keeper, device.mark),
        Err(fault) => {
            tell_fault(rt, fault);
            Err(status_of_fault(fault))
        }
    }
}

/// The peer of a device, once there is one.
pub(crate) fn known_talk<'a>(
    rt: &'a HostRuntime,
    file: &str,
    device: &Option<Device>,
) -> Result<Option<Talk<FileKeeper<'a>>>, Status> {
    match device {
        Some(device) => Ok(Some(talk_of(rt, file, device)?)),
        None => Ok(None),
    }
}

// The name of the file that has the device of another file.
fn device_name(alloc: Global, file: &str) -> Result<String, Status> {
    match format!(in alloc; "{file}.device") {
        Ok(name) => Ok(name),
        Err(_) => Err(Status::NoMemory),
    }
}

/// Keeps a device in the file beside another.
pub(crate) fn keep_device(rt: &HostRuntime, file: &str, device: &Device) -> Result<(), Status> {
    let name = device_name(rt.alloc(), file)?;
    let outcome = device.write(rt, name.as_str());
    drop(name);
    match outcome {
        Ok(()) => Ok(()),
        Err(_) => Err(Status::DiskFault),
    }
}

// The device that is kept beside a file; none where there is none.
fn kept_device(rt: &HostRuntime, file: &str) -> Result<Option<Device>, Status> {
    let name = device_name(rt.alloc(), file)?;
    let read = Device::read(rt, name.as_str());
    drop(name);
    match read {
        Ok(device) => Ok(device),
        Err(_) => Err(Status::DiskFault),
    }
}

// A device of this secret, which is kept beside a file.
fn named_device(rt: &HostRuntime, file: &str, site: u16, secret: &str) -> Result<Device, Status> {
    let Ok(device) = Device::new(rt.alloc(), site, secret) else {
        return Err(Status::NoMemory);
    };
    match keep_device(rt, file, &device) {
        Ok(()) => Ok(device),
        Err(status) => {
            drop(device);
            Err(status)
        }
    }
}

// The device that a key names, which is kept then; none where it is to be made of an invitation.
fn device_by(rt: &HostRuntime, file: &str, key: Key<'_>) -> Result<Option<Device>, Status> {
    match key {
        Key::Invitation(_) => Ok(None),
        Key::None => Err(Status::Usage),
        Key::Device { site, secret } => Ok(Some(named_device(rt, file, site, secret)?)),
    }
}

/// The device of a file, or the one that the address names, which is kept then; none where it is to be made of an
/// invitation.
pub(crate) fn known_device(rt: &HostRuntime, set: Setting<'_>) -> Result<Option<Device>, Status> {
    match kept_device(rt, set.file)? {
        Some(device) => Ok(Some(device)),
        None => device_by(rt, set.file, set.address.key),
    }
}
