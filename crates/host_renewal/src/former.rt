//! The documents whose place a renewal has taken, and their bytes.
ghost use Rattle.std.specs.Prelude.{◌≡◌, ◌↔◌, ◌++◌, ◌≤◌, IfOk, IfSome, IsSome, OnOk, length};
ghost use Rattle.host_renewal.specs.declared.former.TheConstants.{FORMER_BYTES};
ghost use Rattle.host_renewal.specs.Formers.{former_bytes, formers_bytes, is_former};

use host_seal::{SEAL_BYTES, Seal};
use std::alloc::{AllocError, Global};

// How many bytes an identity has.
const IDENTITY_BYTES: usize = 16;

// How many bytes a digest has, a SHA-256.
const DIGEST_BYTES: usize = 32;

/// How many bytes tell of a former document.
pub const FORMER_BYTES: usize = 84;

/// A document whose place a renewal has taken: its identity, the seal of its whole journal, and the digest of its certificate, a
/// SHA-256.
#[derive(Clone, Copy, Debug, PartialEq, Eq)]
pub struct Former {
    pub identity: [u8; 16],
    pub seal: Seal,
    pub certificate: [u8; 32],
}

// The identity of these bytes.
fn identity_of(bytes: &[u8]) -> Option<[u8; 16]>
    ensures same { IfSome result (λ identity. identity ≡ bytes.now) }
    ensures any { IsSome result ↔ (length bytes.now ≡ 16) }
{
    if bytes.len() != IDENTITY_BYTES {
        return None;
    }
    let mut identity = [0; 16];
    identity.copy_from_slice(bytes);
    Some(identity)
}

// The digest of these bytes.
fn digest_of(bytes: &[u8]) -> Option<[u8; 32]>
    ensures same { IfSome result (λ digest. digest ≡ bytes.now) }
    ensures any { IsSome result ↔ (length bytes.now ≡ 32) }
{
    if bytes.len() != DIGEST_BYTES {
        return None;
    }
    let mut digest = [0; 32];
    digest.copy_from_slice(bytes);
    Some(digest)
}

impl Former {
    /// The one of these bytes. Any 84 bytes are one.
    pub fn of_bytes(bytes: &[u8]) -> Option<Former>
        ensures former { IfSome result (λ former. former_bytes former ≡ bytes.now) }
        ensures any { IsSome result ↔ (length bytes.now ≡ FORMER_BYTES) }
    {
        if bytes.len() != FORMER_BYTES {
            return None;
        }
        let (identity, rest) = bytes.split_at(IDENTITY_BYTES);
        let (seal, certificate) = rest.split_at(SEAL_BYTES);
        Some(Former {
            identity: identity_of(identity)?,
            seal: Seal::of_bytes(seal)?,
            certificate: digest_of(certificate)?,
        })
    }
}

/// Puts the bytes of a former document behind others: its identity, the bytes of its seal, and the digest of its certificate.
pub fn put_former(alloc: Global, former: &Former, bytes: &mut Vec<u8>) -> Result<(), AllocError>
    ensures { OnOk result (bytes.new.items ≡ bytes.old.items ++ former_bytes former.now) }
{
    let seal = former.seal.to_bytes(alloc)?;
    bytes.extend_from_slice(&former.identity)?;
    bytes.extend_from_slice(&seal)?;
    bytes.extend_from_slice(&former.certificate)?;
    Ok(())
}

// The first former document of these bytes, and the bytes behind it.
fn first_former(bytes: &[u8]) -> Option<(Former, &[u8])>
    ensures first { IfSome result (λ found. former_bytes found.0 ++ found.1.now ≡ bytes.now) }
    ensures any { IsSome result ↔ (FORMER_BYTES ≤ length bytes.now) }
{
    if bytes.len() < FORMER_BYTES {
        return None;
    }
    let (first, behind) = bytes.split_at(FORMER_BYTES);
    let former = Former::of_bytes(first)?;
    Some((former, behind))
}

/// The former documents of these bytes, the oldest first; none where the bytes aren't those of a row of them.
#[tactic(auto, using(crate::proofs::FormerLemmas::former_more))]
pub fn formers_of(alloc: Global, bytes: &[u8]) -> Result<Option<Vec<Former>>, AllocError>
    ensures { IfOk result (λ found. IfSome found (λ row. formers_bytes row.items ≡ bytes.now)) }
{
    let mut row = Vec::new(alloc);
    let mut rest = bytes;
    for _ in 0..bytes.len() / FORMER_BYTES {
        let Some((former, behind)) = first_former(rest) else {
            drop(row);
            return Ok(None);
        };
        row.push(former)?;
        rest = behind;
    }
    if rest.is_empty() {
        Ok(Some(row))
    } else {
        drop(row);
        Ok(None)
    }
}

/// Whether a document of this identity is among them.
pub fn is_former(formers: &[Former], identity: &[u8; 16]) -> bool
    ensures { result ≡ is_former formers.now identity.now }
{
    formers
        .iter()
        .any(|it| it.identity.as_slice() == identity.as_slice())
}
