//! A disk over a file of the system.
ghost use Rattle.std.specs.Prelude.{◌≡◌, ⊤, None, IsErr, MatchResult};
ghost use Rattle.std.specs.Io.{ReadsAtMost};
ghost use Rattle.edit_io.specs.Causes.{HasCause};

use crate::disk::Disk;
use edit_io::Failed;
use std::fs::{File, OpenOptions, TryLockError};
use std::io::{self, ErrorKind};
use std::os::unix::fs::FileExt;
use std::path::Path;

/// A file of the system, which is opened and locked at the first call.
///
/// A file that isn't there is made empty. Where the name can't be opened, stands for no regular file, or
/// stands for a file that another program keeps locked, each call fails. After a sync that failed each call
/// fails: what was written before may be lost with no further word, so the file has to be opened anew.
///
/// Nothing is claimed of what a file gives, or of what a crash leaves of it.
#[derive(Drop)]
pub struct FileDisk<'a> {
    files: &'a HostRuntime,
    name: String,
    file: Option<File>,
    is_lost: bool,
    faults: u64,
}

// Opens a file that may be there, and locks it against other programs.
fn open_locked(files: &HostRuntime, name: &str) -> io::Result<File> {
    let file = OpenOptions::new()
        .read(true)
        .write(true)
        .create(true)
        .open(files, name)?;
    if !file.metadata()?.is_file() {
        return Err(ErrorKind::Unsupported.into());
    }
    match file.try_lock() {
        Ok(()) => Ok(file),
        Err(TryLockError::Error(error)) => Err(error),
        Err(TryLockError::WouldBlock) => Err(ErrorKind::WouldBlock.into()),
    }
}

// Puts the name of a file on the disk, which a sync of the file alone doesn't.
fn sync_folder(files: &HostRuntime, name: &str) -> io::Result<()> {
    match Path::new(name).parent() {
        Some(folder) if folder.as_str() != "" => File::open(files, folder)?.sync_all(),
        _ => File::open(files, ".")?.sync_all(),
    }
}

// Counts a failure, and leaves out why.
fn counted<T>(outcome: io::Result<T>, faults: &mut u64) -> Result<T, Failed>
    ensures value { MatchResult outcome (λ x. result ≡ Ok x) (λ _. IsErr result) }
    ensures cause { HasCause faults.old faults.new result }
{
    match outcome {
        Ok(value) => Ok(value),
        Err(_) => {
            *faults = faults.saturating_add(1);
            Err(Failed)
        }
    }
}

impl<'a> FileDisk<'a> {
    /// A disk over the file with this name, which isn't opened yet.
    pub fn new(files: &'a HostRuntime, name: String) -> FileDisk<'a> {
        FileDisk {
            files,
            name,
            file: None,
            is_lost: false,
            faults: 0,
        }
    }

    // Opens the file, if it isn't open yet.
    fn open(&mut self) -> io::Result<()>
        ensures { self.new.faults ≡ self.old.faults }
    {
        if self.is_lost {
            return Err(ErrorKind::Other.into());
        }
        if self.file.is_none() {
            let file = open_locked(self.files, self.name.as_str())?;
            sync_folder(self.files, self.name.as_str())?;
            self.file = Some(file);
        }
        Ok(())
    }

    // The file, where it is open.
    fn file(&self) -> io::Result<&File> {
        match &self.file {
            Some(file) => Ok(file),
            None => Err(ErrorKind::NotFound.into()),
        }
    }

    fn measure(&mut self) -> io::Result<u64>
        ensures { self.new.faults ≡ self.old.faults }
    {
        self.open()?;
        Ok(self.file()?.metadata()?.len())
    }

    fn read_some(&mut self, from: u64, buf: &mut [u8]) -> io::Result<usize>
        ensures bound { ReadsAtMost result buf.new }
        ensures faults { self.new.faults ≡ self.old.faults }
    {
        self.open()?;
        self.file()?.read_at(buf, from)
    }

    fn write_all(&mut self, from: u64, bytes: &[u8]) -> io::Result<()>
        ensures { self.new.faults ≡ self.old.faults }
    {
        self.open()?;
        self.file()?.write_all_at(bytes, from)
    }

    // Puts the bytes and the length on the disk. What else the system keeps of a file, as its times, no call asks for.
    fn sync_data(&mut self) -> io::Result<()>
        ensures { self.new.faults ≡ self.old.faults }
    {
        self.open()?;
        let outcome = self.file()?.sync_data();
        self.is_lost = outcome.is_err();
        outcome
    }
}

impl<'a> Disk for FileDisk<'a> {
    ghost seen = { λ _. None };

    ghost may_leave = { λ _ _. ⊤ };

    ghost moment = { λ _. 0 };

    ghost left_since = { λ _ _ _. ⊤ };

    ghost faults = { λ d. d.faults };

    ghost seen_may_stay = { λ _. tt };

    ghost counts_now = { λ _ _ _ _ _. tt };

    ghost only_now = { λ _ _ _. tt };

    fn len(&mut self) -> Result<u64, Failed> {
        let result = self.measure();
        counted(result, &mut self.faults)
    }

    fn read(&mut self, from: u64, buf: &mut [u8]) -> Result<usize, Failed> {
        let result = self.read_some(from, buf);
        counted(result, &mut self.faults)
    }

    fn write_at(&mut self, from: u64, bytes: &[u8]) -> Result<(), Failed> {
        let result = self.write_all(from, bytes);
        counted(result, &mut self.faults)
    }

    fn sync(&mut self) -> Result<(), Failed> {
        let result = self.sync_data();
        counted(result, &mut self.faults)
    }
}
