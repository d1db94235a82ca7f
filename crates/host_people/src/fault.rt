//! Why a book gives up.

use element_name::NoMemory;
use peer_disk::LoadFault;
use std::alloc::{AllocError, AllocFailed};

/// Why a book gives up.
#[derive(Clone, Copy, Debug, PartialEq, Eq)]
pub enum BookFault {
    /// The disk failed. The book is to be opened again: the last change may be in it or not.
    DiskFault,
    /// The file is no book.
    NotABook,
    /// The disk failed at an earlier change.
    Spent,
    /// All numbers of its kind were given, or the file has no room for one more change.
    Full,
    /// Memory is wanting. Nothing was done.
    NoMemory,
}

impl From<NoMemory> for BookFault {
    fn from(_: NoMemory) -> Self {
        BookFault::NoMemory
    }
}

impl From<AllocError> for BookFault {
    fn from(_: AllocError) -> Self {
        BookFault::NoMemory
    }
}

impl<T: Drop> From<AllocFailed<T>> for BookFault {
    fn from(_: AllocFailed<T>) -> Self {
        BookFault::NoMemory
    }
}

impl From<LoadFault> for BookFault {
    fn from(load: LoadFault) -> Self {
        match load {
            LoadFault::DiskFault => BookFault::DiskFault,
            LoadFault::NoMemory => BookFault::NoMemory,
            LoadFault::NoHead => BookFault::NotABook,
        }
    }
}
