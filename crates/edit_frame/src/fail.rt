//! Why a field or a frame wasn't read.
ghost use Rattle.std.specs.Prelude.{◌≡◌};
ghost use Rattle.edit_frame.specs.declared.fail.FieldFail.TheVariants as fields;
ghost use Rattle.edit_frame.specs.Fail.{fault_by};

use crate::frame::FrameKind;
use bytes::TryGetError;
use std::alloc::{AllocError, AllocFailed};

/// A field isn't whole, or has a value that isn't allowed.
#[derive(Clone, Copy, Debug, PartialEq, Eq)]
pub struct Bad;

/// Why a field that takes memory wasn't read.
#[derive(Clone, Copy, Debug, PartialEq, Eq)]
pub enum FieldFail {
    NoMemory,
    Bad,
}

/// Why a frame wasn't read.
#[derive(Clone, Copy, Debug, PartialEq, Eq)]
pub enum FrameFail {
    NoMemory,
    Fault(FrameKind),
}

impl From<TryGetError> for Bad {
    fn from(_e: TryGetError) -> Bad {
        Bad
    }
}

impl From<Bad> for FieldFail {
    ghost from_gives = { λ _ e. e ≡ fields.Bad };

    fn from(_e: Bad) -> FieldFail {
        FieldFail::Bad
    }
}

impl From<AllocError> for FieldFail {
    ghost from_gives = { λ _ e. e ≡ fields.NoMemory };

    fn from(_e: AllocError) -> FieldFail {
        FieldFail::NoMemory
    }
}

impl<T: Drop> From<AllocFailed<T>> for FieldFail {
    ghost from_gives = { λ _ e. e ≡ fields.NoMemory };

    fn from(_e: AllocFailed<T>) -> FieldFail {
        FieldFail::NoMemory
    }
}

impl From<Bad> for FrameFail {
    ghost from_gives = { λ _ e. e ≡ fault_by fields.Bad };

    fn from(_e: Bad) -> FrameFail {
        FrameFail::Fault(FrameKind::BadField)
    }
}

impl From<FieldFail> for FrameFail {
    ghost from_gives = { λ fail e. e ≡ fault_by fail };

    fn from(fail: FieldFail) -> FrameFail {
        match fail {
            FieldFail::NoMemory => FrameFail::NoMemory,
            FieldFail::Bad => FrameFail::Fault(FrameKind::BadField),
        }
    }
}
