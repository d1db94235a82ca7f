//! The device of a file: its site and its secret, the document, and how far it came with the host.

use std::alloc::{AllocError, Global};
use std::fs;
use std::fs::{File, OpenOptions};
use std::io::{self, ErrorKind, Write};
use std::os::unix::fs::OpenOptionsExt;
use std::path::Path;

// Only its owner reads and writes the file.
const MODE: u32 = 0o600;

// What stands for a document that isn't known.
const UNKNOWN: &str = "-";

/// How far a device came: so many messages of the host's journal are in the peer, whose own journal had this length then,
/// and the device's own requests below a place of that are at the host.
#[derive(Clone, Copy, Debug, PartialEq, Eq)]
pub struct Mark {
    pub known: u32,
    pub length: u32,
    pub back: u32,
}

impl Mark {
    /// That of a device which has nothing.
    pub const NONE: Mark = Mark {
        known: 0,
        length: 0,
        back: 0,
    };
}

/// A device.
#[derive(Drop)]
pub struct Device {
    pub site: u16,
    pub secret: String,
    /// The identity of the document, or `-`.
    pub identity: String,
    pub mark: Mark,
}

// What the lines of a device's file say.
#[derive(Clone, Copy)]
struct Words<'a> {
    site: u16,
    secret: &'a str,
    identity: &'a str,
    mark: Mark,
}

// The line of a word, without that word.
fn line_of<'a>(text: &'a str, word: &str) -> Option<&'a str> {
    for line in text.split('\n') {
        if let Some(rest) = line.strip_prefix(word) {
            return Some(rest);
        }
    }
    None
}

// Reads `KNOWN LENGTH BACK`.
fn mark_of(words: &str) -> Option<Mark> {
    let (known, rest) = words.split_once(' ')?;
    let (length, back) = rest.split_once(' ')?;
    Some(Mark {
        known: known.parse::<u32>().ok()?,
        length: length.parse::<u32>().ok()?,
        back: back.parse::<u32>().ok()?,
    })
}

// Reads the lines of a file.
fn words_of(text: &str) -> Option<Words<'_>> {
    let (site, secret) = line_of(text, "device ")?.split_once(' ')?;
    Some(Words {
        site: site.parse::<u16>().ok()?,
        secret,
        identity: line_of(text, "document ")?,
        mark: mark_of(line_of(text, "mark ")?)?,
    })
}

// A device of these words.
fn device_with(alloc: Global, words: Words<'_>) -> Result<Device, AllocError> {
    let secret = String::from_str(alloc, words.secret)?;
    match String::from_str(alloc, words.identity) {
        Ok(identity) => Ok(Device {
            site: words.site,
            secret,
            identity,
            mark: words.mark,
        }),
        Err(AllocError) => Err(AllocError),
    }
}

// The device that the lines of a file say.
fn device_of(alloc: Global, text: &str) -> io::Result<Device> {
    match words_of(text) {
        Some(words) => Ok(device_with(alloc, words)?),
        None => Err(ErrorKind::InvalidData.into()),
    }
}

impl Device {
    /// A device that has nothing yet.
    pub fn new(alloc: Global, site: u16, secret: &str) -> Result<Device, AllocError> {
        device_with(
            alloc,
            Words {
                site,
                secret,
                identity: UNKNOWN,
                mark: Mark::NONE,
            },
        )
    }

    /// Whether the device was let in to its document once.
    pub fn knows_document(&self) -> bool {
        self.identity.as_str() != UNKNOWN
    }

    /// Reads a file; none where it isn't there.
    pub fn read(rt: &HostRuntime, path: &str) -> io::Result<Option<Device>> {
        match fs::read_to_string(rt, path) {
            Ok(text) => {
                let device = device_of(rt.alloc(), text.as_str());
                drop(text);
                Ok(Some(device?))
            }
            Err(error) if error.kind() == ErrorKind::NotFound => Ok(None),
            Err(error) => Err(error),
        }
    }

    // The lines of the file.
    fn text(&self, alloc: Global) -> Result<String, AllocError> {
        let site = self.site;
        let secret = self.secret.as_str();
        let identity = self.identity.as_str();
        let known = self.mark.known;
        let length = self.mark.length;
        let back = self.mark.back;
        format!(in alloc;
            "device {site} {secret}\ndocument {identity}\nmark {known} {length} {back}\n"
        )
    }

    /// Writes a file whole, in place of the one that was there.
    pub fn write(&self, rt: &HostRuntime, path: &str) -> io::Result<()> {
        let text = self.text(rt.alloc())?;
        let outcome = write_whole(rt, path, text.as_str());
        drop(text);
        outcome
    }
}

// Writes a text beside a file, and puts it in the file's place.
fn write_whole(rt: &HostRuntime, path: &str, text: &str) -> io::Result<()> {
    let coming = format!(in rt.alloc(); "{path}.new")?;
    let outcome = write_beside(rt, coming.as_str(), path, text);
    drop(coming);
    outcome
}

// Writes a text into a file of a name, and gives it another.
fn write_beside(rt: &HostRuntime, coming: &str, path: &str, text: &str) -> io::Result<()> {
    let file = open_new(rt, coming)?;
    write_synced(file, text)?;
    fs::rename(rt, coming, path)?;
    sync_folder(rt, path)
}

// An empty file, which only its owner reads and writes.
fn open_new(rt: &HostRuntime, path: &str) -> io::Result<File> {
    OpenOptions::new()
        .write(true)
        .create(true)
        .truncate(true)
        .mode(MODE)
        .open(rt, path)
}

// Writes a text, so that it is on the disk.
fn write_synced(mut file: File, text: &str) -> io::Result<()> {
    file.write_all(text.as_bytes())?;
    file.sync_all()
}

// Puts the name of a file on the disk.
fn sync_folder(rt: &HostRuntime, path: &str) -> io::Result<()> {
    match Path::new(path).parent() {
        Some(folder) if folder.as_str() != "" => File::open(rt, folder)?.sync_all(),
        _ => File::open(rt, ".")?.sync_all(),
    }
}
