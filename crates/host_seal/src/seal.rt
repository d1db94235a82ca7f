//! A seal, and its bytes.
ghost use Rattle.std.specs.Prelude.{◌≡◌, ◌↔◌, IfOk, IfSome, IsSome, length};
ghost use Rattle.host_seal.specs.declared.seal.SealFault.TheVariants as faults;
ghost use Rattle.host_seal.specs.Seals.{seal_bytes};

use element_name::NoMemory;
use std::alloc::{AllocError, Global};

/// How many bytes a seal has.
pub const SEAL_BYTES: usize = 36;

/// How many messages of a journal were sealed, and the digest of their frames, a SHA-256.
#[derive(Clone, Copy, Debug, PartialEq, Eq)]
pub struct Seal {
    pub items: u32,
    pub digest: [u8; 32],
}

/// Why a journal isn't taken for the one that was sealed.
#[derive(Clone, Copy, Debug, PartialEq, Eq)]
pub enum SealFault {
    /// It has fewer messages than were sealed: an older file stands there, or a gate of it is shut.
    Fewer,
    /// Its first messages are others than those that were sealed: a byte is another one, or the file is another document's.
    Others,
    /// Memory is wanting.
    NoMemory,
}

impl From<NoMemory> for SealFault {
    ghost from_gives = { λ _ f. f ≡ faults.NoMemory };

    fn from(_: NoMemory) -> SealFault {
        SealFault::NoMemory
    }
}

impl Seal {
    /// Its bytes: the number of messages, highest byte first, and the digest.
    pub fn to_bytes(&self, alloc: Global) -> Result<Vec<u8>, AllocError>
        ensures { IfOk result (λ bytes. bytes.items ≡ seal_bytes self.now) }
    {
        let mut bytes = Vec::new(alloc);
        bytes.extend_from_slice(&self.items.to_be_bytes())?;
        bytes.extend_from_slice(&self.digest)?;
        Ok(bytes)
    }

    /// The seal of these bytes. Any 36 bytes are one.
    pub fn of_bytes(bytes: &[u8]) -> Option<Seal>
        ensures seal { IfSome result (λ seal. seal_bytes seal ≡ bytes.now) }
        ensures any { IsSome result ↔ (length bytes.now ≡ SEAL_BYTES) }
    {
        let [a, b, c, d, rest @ ..] = bytes else {
            return None;
        };
        if rest.len() != 32 {
            return None;
        }
        let mut digest = [0; 32];
        digest.copy_from_slice(rest);
        Some(Seal {
            items: u32::from_be_bytes([*a, *b, *c, *d]),
            digest,
        })
    }
}
