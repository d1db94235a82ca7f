//! Seals as files. The seal of a document stands beside its steps. It is written whole beside the former one, and takes its
//! place, always behind a save: so it never says more than the steps have.
ghost use Rattle.std.specs.Prelude.{◌≡◌, IsSome};

use crate::folder::write_file;
use host_interface::{HouseDocument, OpenFault};
use host_seal::Seal;
use std::fs;
use std::io::{self, ErrorKind};

// The bytes of the file of a document's seal.
fn read_bytes(rt: &HostRuntime, folder: &str, name: &str) -> io::Result<Vec<u8>> {
    let path = format!(in rt.alloc(); "{folder}/{name}/seal")?;
    fs::read(rt, path.as_str())
}

// What comes of a file of a seal that isn't read for this reason. Where there is none, nothing was sealed yet.
fn unread(why: ErrorKind) -> Result<Option<Seal>, OpenFault> {
    match why {
        ErrorKind::NotFound => Ok(None),
        ErrorKind::OutOfMemory => Err(OpenFault::NoMemory),
        _ => Err(OpenFault::DiskFault),
    }
}

// The seal of the document of this name; none where nothing was sealed yet.
fn read_seal(rt: &HostRuntime, folder: &str, name: &str) -> Result<Option<Seal>, OpenFault> {
    match read_bytes(rt, folder, name) {
        Ok(bytes) => match Seal::of_bytes(&bytes) {
            Some(seal) => Ok(Some(seal)),
            None => Err(OpenFault::BadSeal),
        },
        Err(error) => unread(error.kind()),
    }
}

// Writes the bytes of a seal beside the former one.
fn write_coming(rt: &HostRuntime, coming: &str, seal: &Seal) -> io::Result<()> {
    let bytes = seal.to_bytes(rt.alloc())?;
    write_file(rt, coming, &bytes)
}

/// Writes the seal of the document in this folder in place of the former one.
pub(crate) fn write_seal(
    rt: &HostRuntime,
    folder: &str,
    name: &str,
    seal: &Seal,
) -> io::Result<()> {
    let coming = format!(in rt.alloc(); "{folder}/{name}/seal.new")?;
    write_coming(rt, coming.as_str(), seal)?;
    let at_last = format!(in rt.alloc(); "{folder}/{name}/seal")?;
    fs::rename(rt, coming.as_str(), at_last.as_str())
}

/// Opens a document, unless it is open, if what is saved of it begins with what was sealed.
pub(crate) fn open_sealed<'a, D: HouseDocument<'a>>(
    rt: &'a HostRuntime,
    folder: &str,
    document: &mut D,
) -> Result<(), OpenFault>
    ensures { IsSome (D.past document.old) → document.new ≡ document.old }
{
    if document.is_open() {
        return Ok(());
    }
    match read_seal(rt, folder, document.name()) {
        Ok(seal) => document.open(rt, folder, seal),
        Err(fault) => {
            document.give_up(fault);
            Err(fault)
        }
    }
}

/// Seals what is saved of a document, if it is open and the last seal lacks some of that. Where the seal can't be written the
/// former one stays, which says less.
pub(crate) fn seal_document<'a, D: HouseDocument<'a>>(
    rt: &HostRuntime,
    folder: &str,
    document: &mut D,
)
    ensures { document.new ≡ document.old }
{
    let Ok(Some(seal)) = document.next_seal(rt.alloc()) else {
        return;
    };
    if write_seal(rt, folder, document.name(), &seal).is_ok() {
        document.note_sealed(&seal);
    }
}
