//! Renewals as folders. A renewal is made whole beside its document, in `.NAME.renewing`. Once that is named `.NAME.renewed` it
//! counts, and then the old folder is put away and the new one gets its name. What a crash breaks off of that is ended when the house is
//! opened: so a crash at any moment leaves the old document or the new one. Where the old folder can't be put away, it is named back.

use crate::folder::{
    archive_folder, archive_path, rename_folder, rename_synced, sync_names, write_file,
    write_identity,
};
use crate::formers::{FormersFile, read_formers, write_formers};
use crate::seals::write_seal;
use host_link::{Identity, is_document_name};
use host_renewal::Former;
use host_seal::Seal;
use std::alloc::{AllocError, Global};
use std::fs;
use std::io::{self, ErrorKind};

/// What a renewal of a document is, besides its steps.
#[derive(Drop)]
pub(crate) struct Renewal {
    pub(crate) identity: Identity,
    pub(crate) seal: Seal,
    /// Those whose place it takes, the document that it renews as the last.
    pub(crate) formers: Vec<Former>,
}

/// What came of a renewal that counts.
#[derive(Clone, Copy, Debug, PartialEq, Eq)]
pub(crate) enum Renewed {
    /// It stands in its document's place.
    InPlace,
    /// The folders failed, so it takes its place when the house is opened the next time.
    AtNextStart,
}

// What stands behind the name of a document in that of the folder in which its renewal is made.
const COMING: &str = ".renewing";

// The same of the folder of its renewal which counts.
const READY: &str = ".renewed";

// The name of the folder of a renewal, with this behind that of its document.
fn renewal_name(alloc: Global, name: &str, ending: &str) -> Result<String, AllocError> {
    format!(in alloc; ".{name}{ending}")
}

// Where that folder stands.
fn renewal_path(
    alloc: Global,
    folder: &str,
    name: &str,
    ending: &str,
) -> Result<String, AllocError> {
    format!(in alloc; "{folder}/.{name}{ending}")
}

// Fails where something stands under a path.
fn refuse_there(rt: &HostRuntime, path: &str) -> io::Result<()> {
    if fs::exists(rt, path)? {
        return Err(ErrorKind::AlreadyExists.into());
    }
    Ok(())
}

// Fails where a document was put away under this name and identity.
fn refuse_archived(
    rt: &HostRuntime,
    folder: &str,
    name: &str,
    identity: &Identity,
) -> io::Result<()> {
    let path = archive_path(rt.alloc(), folder, name, identity)?;
    refuse_there(rt, path.as_str())
}

/// Fails where a renewal counts that takes the place of the document of this name when the house is opened the next time. Until
/// then that document keeps its name.
pub(crate) fn refuse_awaited(rt: &HostRuntime, folder: &str, name: &str) -> io::Result<()> {
    let path = renewal_path(rt.alloc(), folder, name, READY)?;
    refuse_there(rt, path.as_str())
}

/// Removes what a renewal that doesn't count has left.
pub(crate) fn clear_coming(rt: &HostRuntime, folder: &str, name: &str) -> io::Result<()> {
    let path = renewal_path(rt.alloc(), folder, name, COMING)?;
    if fs::exists(rt, path.as_str())? {
        fs::remove_dir_all(rt, path.as_str())?;
    }
    Ok(())
}

/// Makes the folder in which a document is to be renewed, and gives the path of the steps there. No document was put away under the
/// same name and identity.
pub(crate) fn make_coming(
    rt: &HostRuntime,
    folder: &str,
    name: &str,
    identity: &Identity,
) -> io::Result<String> {
    refuse_archived(rt, folder, name, identity)?;
    clear_coming(rt, folder, name)?;
    let path = renewal_path(rt.alloc(), folder, name, COMING)?;
    fs::create_dir_all(rt, path.as_str())?;
    Ok(format!(in rt.alloc(); "{folder}/.{name}{COMING}/steps")?)
}

// Writes the seal of a renewal.
fn write_coming_seal(rt: &HostRuntime, folder: &str, name: &str, seal: &Seal) -> io::Result<()> {
    let coming = renewal_name(rt.alloc(), name, COMING)?;
    write_seal(rt, folder, coming.as_str(), seal)
}

/// Writes what a renewal has beside its steps, and waits until all of its folder is on the disk.
pub(crate) fn write_coming(
    rt: &HostRuntime,
    folder: &str,
    name: &str,
    renewal: &Renewal,
) -> io::Result<()> {
    write_coming_seal(rt, folder, name, &renewal.seal)?;
    let within = renewal_path(rt.alloc(), folder, name, COMING)?;
    write_identity(rt, within.as_str(), &renewal.identity)?;
    write_formers(rt, within.as_str(), &renewal.formers)?;
    sync_names(rt, within.as_str())
}

/// Writes the certificate of a document into its folder, and waits until it is on the disk.
pub(crate) fn write_certificate(
    rt: &HostRuntime,
    folder: &str,
    name: &str,
    certificate: &[u8],
) -> io::Result<()> {
    let within = format!(in rt.alloc(); "{folder}/{name}")?;
    let path = format!(in rt.alloc(); "{folder}/{name}/certificate")?;
    write_file(rt, path.as_str(), certificate)?;
    sync_names(rt, within.as_str())
}

/// Removes it again.
pub(crate) fn remove_certificate(rt: &HostRuntime, folder: &str, name: &str) -> io::Result<()> {
    let path = format!(in rt.alloc(); "{folder}/{name}/certificate")?;
    fs::remove_file(rt, path.as_str())
}

/// Has the renewal of a document count. From then on the document is renewed, whatever happens, unless [`place`] takes that back.
/// Where the name that says so can be neither synced nor taken back it counts too, as it would when the house is opened the next time.
pub(crate) fn make_count(rt: &HostRuntime, folder: &str, name: &str) -> io::Result<()> {
    let coming = renewal_path(rt.alloc(), folder, name, COMING)?;
    let ready = renewal_path(rt.alloc(), folder, name, READY)?;
    rename_folder(rt, coming.as_str(), ready.as_str(), &[folder])
}

// Has it count no more. Fails where that can't be synced.
fn take_back(rt: &HostRuntime, folder: &str, name: &str) -> io::Result<()> {
    let coming = renewal_path(rt.alloc(), folder, name, COMING)?;
    let ready = renewal_path(rt.alloc(), folder, name, READY)?;
    rename_synced(rt, ready.as_str(), coming.as_str(), &[folder])
}

// Whether the folder of a document stands where it does else.
fn stands(rt: &HostRuntime, folder: &str, name: &str) -> io::Result<bool> {
    let path = format!(in rt.alloc(); "{folder}/{name}")?;
    fs::exists(rt, path.as_str())
}

// Gives the name of a document to its renewal that counts.
fn name_ready(rt: &HostRuntime, folder: &str, name: &str) -> io::Result<()> {
    let from = renewal_path(rt.alloc(), folder, name, READY)?;
    let to = format!(in rt.alloc(); "{folder}/{name}")?;
    rename_folder(rt, from.as_str(), to.as_str(), &[folder])
}

// Puts the document of a renewal that counts away, by its identity, unless it was, and gives its name to the renewal.
fn take_place(rt: &HostRuntime, folder: &str, name: &str, identity: &Identity) -> io::Result<()> {
    if stands(rt, folder, name)? {
        archive_folder(rt, folder, name, identity)?;
    }
    name_ready(rt, folder, name)
}

// Takes the renewal of a document back, if the document's folder stands where it was, and says whether it did.
fn took_back(rt: &HostRuntime, folder: &str, name: &str) -> bool {
    match stands(rt, folder, name) {
        Ok(true) => take_back(rt, folder, name).is_ok(),
        _ => false,
    }
}

/// Has a renewal that counts take its document's place. An error says that nothing has moved: the document couldn't be put away, and
/// the renewal doesn't count any more. Where that can't be had, or the document is away, the renewal waits for the next start.
pub(crate) fn place(
    rt: &HostRuntime,
    folder: &str,
    name: &str,
    identity: &Identity,
) -> io::Result<Renewed> {
    match take_place(rt, folder, name, identity) {
        Ok(()) => Ok(Renewed::InPlace),
        Err(error) => {
            if took_back(rt, folder, name) {
                return Err(error);
            }
            drop(error);
            Ok(Renewed::AtNextStart)
        }
    }
}

// The name of the document whose renewal counts in a folder of this name.
fn renewed_name(entry: &str) -> Option<&str> {
    let name = entry.strip_prefix(".")?.strip_suffix(READY)?;
    if is_document_name(name) {
        Some(name)
    } else {
        None
    }
}

// The names of the documents whose renewals count and aren't in their places.
fn renewed_names(rt: &HostRuntime, folder: &str) -> io::Result<Vec<String>> {
    let mut names = Vec::new(rt.alloc());
    for entry in fs::read_dir(rt, folder)? {
        let entry = entry?;
        if let Some(name) = renewed_name(entry.file_name()) {
            names.push(String::from_str(rt.alloc(), name)?)?;
        }
    }
    Ok(names)
}

// The identity of the document whose renewal counts.
fn renewed_identity(rt: &HostRuntime, folder: &str, name: &str) -> io::Result<Identity> {
    let ready = renewal_name(rt.alloc(), name, READY)?;
    match read_formers(rt, folder, ready.as_str())? {
        FormersFile::Row(row) => match row.last() {
            Some(former) => Ok(former.identity),
            None => Err(ErrorKind::InvalidData.into()),
        },
        FormersFile::Damaged => Err(ErrorKind::InvalidData.into()),
    }
}

/// Ends the renewals that count and that a crash broke off.
pub(crate) fn end_renewals(rt: &HostRuntime, folder: &str) -> io::Result<()> {
    for name in renewed_names(rt, folder)? {
        let identity = renewed_identity(rt, folder, name.as_str())?;
        take_place(rt, folder, name.as_str(), &identity)?;
    }
    Ok(())
}
