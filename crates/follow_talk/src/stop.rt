//! Why a follower stops.

use element_name::NoMemory;
use follow_text::CutFail;
use host_core::KeepFail;
use line_spelling::LineFail;
use std::alloc::AllocError;

/// Why a follower stops.
#[derive(Clone, Copy, Debug, PartialEq, Eq)]
pub enum Stop {
    /// A line is bad.
    BadLine,
    /// Its peer doesn't take what the host has. The file isn't of the device any more, and was told so.
    Lost,
    /// The file has no room for one more step.
    StoreFull,
    /// The disk failed.
    DiskFault,
    /// Memory was wanting.
    NoMemory,
}

impl From<NoMemory> for Stop {
    fn from(_: NoMemory) -> Stop {
        Stop::NoMemory
    }
}

impl From<AllocError> for Stop {
    fn from(_: AllocError) -> Stop {
        Stop::NoMemory
    }
}

impl From<KeepFail> for Stop {
    fn from(fail: KeepFail) -> Stop {
        match fail {
            KeepFail::Full => Stop::StoreFull,
            KeepFail::NoMemory => Stop::NoMemory,
            KeepFail::Failed => Stop::DiskFault,
        }
    }
}

impl From<CutFail> for Stop {
    fn from(fail: CutFail) -> Stop {
        match fail {
            CutFail::NotText => Stop::BadLine,
            CutFail::NoMemory => Stop::NoMemory,
        }
    }
}

impl From<LineFail> for Stop {
    fn from(fail: LineFail) -> Stop {
        match fail {
            LineFail::Bad => Stop::BadLine,
            LineFail::NoMemory => Stop::NoMemory,
        }
    }
}
