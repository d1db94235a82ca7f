//! Documents as folders. A document stands in a folder of its name, with its identity, its steps and their seal. A folder that
//! is made or put away is named at last, so that it is whole wherever it stands.

use crate::formers::known_formers;
use hex::{decode_to_slice, encode};
use host_interface::{HouseDocument, OpenFault};
use host_link::{Identity, is_document_name};
use host_renewal::Former;
use std::alloc::{AllocError, Global};
use std::fs;
use std::fs::File;
use std::io::{self, ErrorKind, Write};
use std::path::Path;
use std::random::RandomSource;

// Where the identity of a document stands.
fn identity_path(alloc: Global, folder: &str, name: &str) -> io::Result<String> {
    Ok(format!(in alloc; "{folder}/{name}/identity")?)
}

// The identity of a document.
fn read_identity(rt: &HostRuntime, folder: &str, name: &str) -> io::Result<Identity> {
    let path = identity_path(rt.alloc(), folder, name)?;
    let text = fs::read_to_string(rt, path.as_str())?;
    let mut identity = [0; 16];
    match decode_to_slice(text.as_str().trim(), &mut identity) {
        Ok(()) => Ok(identity),
        Err(_) => Err(ErrorKind::InvalidData.into()),
    }
}

// Whether a document of this name has steps, as each that was opened once has. Where that can't be told it counts as having some.
fn has_steps(rt: &HostRuntime, folder: &str, name: &str) -> bool {
    match format!(in rt.alloc(); "{folder}/{name}/steps") {
        Ok(path) => fs::exists(rt, path.as_str()).unwrap_or(true),
        Err(_) => true,
    }
}

// Why the document of this name can't be opened, whose identity isn't read for this reason. None where there is none.
fn loss(rt: &HostRuntime, folder: &str, name: &str, why: ErrorKind) -> Option<OpenFault> {
    match why {
        ErrorKind::NotADirectory => None,
        ErrorKind::NotFound if !has_steps(rt, folder, name) => None,
        ErrorKind::NotFound => Some(OpenFault::Damaged),
        ErrorKind::InvalidData => Some(OpenFault::Damaged),
        ErrorKind::OutOfMemory => Some(OpenFault::NoMemory),
        _ => Some(OpenFault::DiskFault),
    }
}

// What was found as the identity of the document of this name. None where there is none, or none may be called so.
fn find_identity(
    rt: &HostRuntime,
    folder: &str,
    name: &str,
) -> Option<Result<Identity, OpenFault>> {
    if !is_document_name(name) {
        return None;
    }
    match read_identity(rt, folder, name) {
        Ok(identity) => Some(Ok(identity)),
        Err(error) => match loss(rt, folder, name, error.kind()) {
            Some(fault) => Some(Err(fault)),
            None => None,
        },
    }
}

// Puts a document, closed, to the others.
fn put_document<'a, D: HouseDocument<'a>>(
    documents: &mut Vec<D>,
    name: String,
    identity: Result<Identity, OpenFault>,
    formers: Vec<Former>,
) -> io::Result<()> {
    let document = match identity {
        Ok(identity) => D::new(name, identity, formers),
        Err(fault) => D::lost(name, fault, formers),
    };
    documents.push(document)?;
    Ok(())
}

// Puts the documents that stand in a folder to the others.
fn put_documents<'a, D: HouseDocument<'a>>(
    rt: &HostRuntime,
    folder: &str,
    documents: &mut Vec<D>,
) -> io::Result<()> {
    for entry in fs::read_dir(rt, folder)? {
        let entry = entry?;
        if let Some(identity) = find_identity(rt, folder, entry.file_name()) {
            let name = String::from_str(rt.alloc(), entry.file_name())?;
            let formers = known_formers(rt, folder, name.as_str());
            put_document(documents, name, identity, formers)?;
        }
    }
    Ok(())
}

/// The documents that stand in a folder, closed. One that has steps and no identity is among them, and is never opened.
pub(crate) fn find_documents<'a, D: HouseDocument<'a>>(
    rt: &HostRuntime,
    folder: &str,
) -> io::Result<Vec<D>> {
    let mut documents = Vec::new(rt.alloc());
    match put_documents(rt, folder, &mut documents) {
        Ok(()) => Ok(documents),
        Err(error) => {
            drop(documents);
            Err(error)
        }
    }
}

/// An identity of the system's randomness.
pub(crate) fn new_identity(rt: &HostRuntime) -> io::Result<Identity> {
    let mut identity = [0; 16];
    rt.fill_bytes(&mut identity)?;
    Ok(identity)
}

/// Writes a file, and waits until it is on the disk.
pub(crate) fn write_file(rt: &HostRuntime, path: &str, bytes: &[u8]) -> io::Result<()> {
    let mut file = File::create(rt, path)?;
    file.write_all(bytes)?;
    file.sync_all()
}

// The line of an identity.
fn identity_line(alloc: Global, identity: &Identity) -> Result<String, AllocError> {
    let digits = encode(alloc, identity.as_slice())?;
    format!(in alloc; "{digits}\n")
}

/// Writes an identity into the folder of a document, and waits until it is on the disk.
pub(crate) fn write_identity(
    rt: &HostRuntime,
    within: &str,
    identity: &Identity,
) -> io::Result<()> {
    let path = format!(in rt.alloc(); "{within}/identity")?;
    let line = identity_line(rt.alloc(), identity)?;
    write_file(rt, path.as_str(), line.as_str().as_bytes())
}

/// Waits until the names in a folder are on the disk, which a sync of what they name doesn't.
pub(crate) fn sync_names(rt: &HostRuntime, folder: &str) -> io::Result<()> {
    File::open(rt, folder)?.sync_all()
}

// The same of several folders.
fn sync_all_names(rt: &HostRuntime, folders: &[&str]) -> io::Result<()> {
    for folder in folders {
        sync_names(rt, folder)?;
    }
    Ok(())
}

// Names a folder anew, and waits until that is on the disk, in the folders that have the names. Where it can't be, the folder gets
// its former name again, if it can: an error comes with whether it has its former name.
fn rename_or_back(
    rt: &HostRuntime,
    old: &str,
    new: &str,
    within: &[&str],
) -> Result<(), (io::Error, bool)> {
    if let Err(error) = fs::rename(rt, old, new) {
        return Err((error, true));
    }
    match sync_all_names(rt, within) {
        Ok(()) => Ok(()),
        Err(error) => Err((error, fs::rename(rt, new, old).is_ok())),
    }
}

/// Names a folder anew, and waits until that is on the disk, in the folders that have the names. Where it can't be, the folder gets
/// its former name again, if it can.
pub(crate) fn rename_synced(
    rt: &HostRuntime,
    old: &str,
    new: &str,
    within: &[&str],
) -> io::Result<()> {
    match rename_or_back(rt, old, new, within) {
        Ok(()) => Ok(()),
        Err((error, _)) => Err(error),
    }
}

/// The same of a folder that may have either name after a crash. A new name that can be neither synced nor taken back counts, so
/// the folder has its former name wherever this fails.
pub(crate) fn rename_folder(
    rt: &HostRuntime,
    old: &str,
    new: &str,
    within: &[&str],
) -> io::Result<()> {
    match rename_or_back(rt, old, new, within) {
        Err((error, true)) => Err(error),
        _ => Ok(()),
    }
}

/// Makes the folder of a house, unless it is there.
pub(crate) fn make_house(rt: &HostRuntime, folder: &str) -> io::Result<()> {
    if fs::exists(rt, folder)? {
        return Ok(());
    }
    fs::create_dir_all(rt, folder)?;
    match Path::new(folder).parent() {
        Some(above) if above.as_str() != "" => sync_names(rt, above.as_str()),
        _ => sync_names(rt, "."),
    }
}

// Makes a folder with an identity in it, and waits until that is on the disk.
fn make_coming(rt: &HostRuntime, coming: &str, identity: &Identity) -> io::Result<()> {
    fs::create_dir_all(rt, coming)?;
    write_identity(rt, coming, identity)?;
    sync_names(rt, coming)
}

/// Makes the folder of a document of this name and identity.
pub(crate) fn make_folder(
    rt: &HostRuntime,
    folder: &str,
    name: &str,
    identity: &Identity,
) -> io::Result<()> {
    let coming = format!(in rt.alloc(); "{folder}/.{name}.new")?;
    make_coming(rt, coming.as_str(), identity)?;
    let at_last = format!(in rt.alloc(); "{folder}/{name}")?;
    rename_synced(rt, coming.as_str(), at_last.as_str(), &[folder])
}

/// Gives a document another name, which no other has. Where that fails its folder has its former name.
pub(crate) fn move_folder(rt: &HostRuntime, folder: &str, from: &str, to: &str) -> io::Result<()> {
    let alloc = rt.alloc();
    let old = format!(in alloc; "{folder}/{from}")?;
    let new = format!(in alloc; "{folder}/{to}")?;
    rename_folder(rt, old.as_str(), new.as_str(), &[folder])
}

/// Where a document of this name and identity stands that was put away.
pub(crate) fn archive_path(
    alloc: Global,
    folder: &str,
    name: &str,
    identity: &Identity,
) -> Result<String, AllocError> {
    let digits = encode(alloc, identity.as_slice())?;
    format!(in alloc; "{folder}/.archive/{name}.{digits}")
}

// Moves the folder of a document to the others that were put away.
fn move_away(
    rt: &HostRuntime,
    folder: &str,
    away: &str,
    name: &str,
    identity: &Identity,
) -> io::Result<()> {
    let old = format!(in rt.alloc(); "{folder}/{name}")?;
    let new = archive_path(rt.alloc(), folder, name, identity)?;
    rename_folder(rt, old.as_str(), new.as_str(), &[away, folder])
}

/// Puts a document away, below `.archive`, by its name and its identity. Where that fails its folder stands where it was.
pub(crate) fn archive_folder(
    rt: &HostRuntime,
    folder: &str,
    name: &str,
    identity: &Identity,
) -> io::Result<()> {
    let away = format!(in rt.alloc(); "{folder}/.archive")?;
    fs::create_dir_all(rt, away.as_str())?;
    move_away(rt, folder, away.as_str(), name, identity)
}
