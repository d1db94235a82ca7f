//! Former documents as a file. It stands beside the steps of a document that has taken the place of others, and says which.

use crate::folder::write_file;
use host_renewal::{Former, formers_of, put_former};
use std::alloc::{AllocError, Global};
use std::fs;
use std::io::{self, ErrorKind};

/// What stands in the file of a document's former ones.
#[derive(Drop)]
pub(crate) enum FormersFile {
    /// These, the oldest first; none where there is no file.
    Row(Vec<Former>),
    /// Bytes that are no row of them.
    Damaged,
}

// The bytes of the file; none where there isn't one.
fn read_bytes(rt: &HostRuntime, folder: &str, name: &str) -> io::Result<Option<Vec<u8>>> {
    let path = format!(in rt.alloc(); "{folder}/{name}/former")?;
    match fs::read(rt, path.as_str()) {
        Ok(bytes) => Ok(Some(bytes)),
        Err(error) if error.kind() == ErrorKind::NotFound => Ok(None),
        Err(error) => Err(error),
    }
}

/// The former documents of the one that stands in this folder.
pub(crate) fn read_formers(rt: &HostRuntime, folder: &str, name: &str) -> io::Result<FormersFile> {
    let Some(bytes) = read_bytes(rt, folder, name)? else {
        return Ok(FormersFile::Row(Vec::new(rt.alloc())));
    };
    match formers_of(rt.alloc(), &bytes)? {
        Some(row) => Ok(FormersFile::Row(row)),
        None => Ok(FormersFile::Damaged),
    }
}

/// Those of them that are known: none where the file can't be read.
pub(crate) fn known_formers(rt: &HostRuntime, folder: &str, name: &str) -> Vec<Former> {
    match read_formers(rt, folder, name) {
        Ok(FormersFile::Row(row)) => row,
        Ok(FormersFile::Damaged) => Vec::new(rt.alloc()),
        Err(_) => Vec::new(rt.alloc()),
    }
}

/// These and one more behind them.
pub(crate) fn with_former(
    alloc: Global,
    formers: &[Former],
    last: Former,
) -> Result<Vec<Former>, AllocError> {
    let mut row = Vec::new(alloc);
    row.extend_from_slice(formers)?;
    row.push(last)?;
    Ok(row)
}

// The bytes of a row of them.
fn bytes_of(alloc: Global, formers: &[Former]) -> Result<Vec<u8>, AllocError> {
    let mut bytes = Vec::new(alloc);
    for former in formers {
        put_former(alloc, former, &mut bytes)?;
    }
    Ok(bytes)
}

/// Writes the file into the folder of a document, and waits until it is on the disk.
pub(crate) fn write_formers(rt: &HostRuntime, within: &str, formers: &[Former]) -> io::Result<()> {
    let path = format!(in rt.alloc(); "{within}/former")?;
    let bytes = bytes_of(rt.alloc(), formers)?;
    write_file(rt, path.as_str(), &bytes)
}
