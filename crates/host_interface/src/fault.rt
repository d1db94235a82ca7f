//! Why a document isn't opened, and why orders to it aren't made.

use edit_message::Missing;
use element_name::NoMemory;
use host_link::Ending;
use policy_book::EntryFault;
use std::alloc::{AllocError, AllocFailed, Global};

/// Why a document can't be opened.
#[derive(Clone, Copy, Debug, PartialEq, Eq)]
pub enum OpenFault {
    /// Its file is none of its host or is damaged, it has no identity, or it was put away.
    Damaged,
    /// Fewer messages were found than were sealed: an older file stands there, or a gate of it is shut.
    Fewer { found: u32, sealed: u32 },
    /// The first messages that were found are others than those that were sealed: a byte is another one, or the file is
    /// another document's.
    Others { found: u32, sealed: u32 },
    /// Its seal can't be read as one.
    BadSeal,
    /// The disk failed.
    DiskFault,
    /// Memory is wanting.
    NoMemory,
}

// How many messages were found and how many were sealed, and what is to be done.
fn counts(alloc: Global, found: u32, sealed: u32) -> Result<String, AllocError> {
    format!(in alloc; "{found} messages, {sealed} sealed: restore a copy")
}

impl OpenFault {
    /// The word for it.
    pub fn word(self) -> &'static str {
        match self {
            OpenFault::Damaged => "damaged",
            OpenFault::Fewer { .. } => "fewer-messages",
            OpenFault::Others { .. } => "other-messages",
            OpenFault::BadSeal => "damaged-seal",
            OpenFault::DiskFault => "disk-fault",
            OpenFault::NoMemory => "no-memory",
        }
    }

    // How many messages were found, and what is to be done where these, or their seal, aren't what was written.
    fn found(self, alloc: Global) -> Result<String, AllocError> {
        match self {
            OpenFault::Fewer { found, sealed } => counts(alloc, found, sealed),
            OpenFault::Others { found, sealed } => counts(alloc, found, sealed),
            OpenFault::BadSeal => String::from_str(alloc, "0 messages: restore a copy"),
            _ => String::from_str(alloc, "0 messages"),
        }
    }

    /// Its word, and what was found.
    pub fn told(self, alloc: Global) -> Result<String, AllocError> {
        let word = self.word();
        let found = self.found(alloc)?;
        format!(in alloc; "{word}, {found}")
    }
}

/// Why an operation isn't made.
#[derive(Clone, Copy)]
pub enum NotMade {
    /// It isn't legal, by this first fault.
    Illegal(EntryFault),
    /// It speaks of what isn't there.
    Misses(Missing),
    /// The log has as many entries as it may.
    LogFull,
    /// Memory is wanting.
    NoMemory,
}

impl From<NoMemory> for NotMade {
    fn from(_: NoMemory) -> NotMade {
        NotMade::NoMemory
    }
}

/// Why a row of orders isn't made. Nothing of it is, then.
#[derive(Clone, Copy)]
pub enum RowFault {
    /// It has more lines than it may.
    TooLong,
    /// The line of this number, from 1, is no order.
    BadLine(usize),
    /// The operation of the line of this number can't be made.
    NotMade(usize, NotMade),
    /// The document isn't open, or its host refuses it: by what a link ends whose message is refused so.
    Ended(Ending),
    /// Memory is wanting.
    NoMemory,
}

impl From<NoMemory> for RowFault {
    fn from(_: NoMemory) -> RowFault {
        RowFault::NoMemory
    }
}

impl From<AllocError> for RowFault {
    fn from(_: AllocError) -> RowFault {
        RowFault::NoMemory
    }
}

impl<T: Drop> From<AllocFailed<T>> for RowFault {
    fn from(_: AllocFailed<T>) -> RowFault {
        RowFault::NoMemory
    }
}

impl NotMade {
    // The words that tell it of the line of this number.
    fn words(self, alloc: Global, line: usize) -> Result<String, AllocError> {
        match self {
            NotMade::Illegal(fault) => {
                let number = fault.number();
                format!(in alloc; "illegal {number} line {line}")
            }
            NotMade::Misses(_) => format!(in alloc; "missing line {line}"),
            NotMade::LogFull => String::from_str(alloc, "log full"),
            NotMade::NoMemory => String::from_str(alloc, "no memory"),
        }
    }
}

impl RowFault {
    /// The words that tell it.
    pub fn words(self, alloc: Global) -> Result<String, AllocError> {
        match self {
            RowFault::TooLong => String::from_str(alloc, "too many lines"),
            RowFault::BadLine(line) => format!(in alloc; "bad line {line}"),
            RowFault::NotMade(line, why) => why.words(alloc, line),
            RowFault::Ended(why) => String::from_str(alloc, why.words()),
            RowFault::NoMemory => String::from_str(alloc, "no memory"),
        }
    }
}
