//! Secrets of invitations and devices.
ghost use Rattle.std.specs.Prelude.{◌≡◌, bytes_eq};
ghost use Rattle.sha2.specs.Sha256.{sha256};

use host_core::same_bytes;
use host_people::{Digest, SECRET_BYTES, Secret};
use sha2::{Digest as Hashes, Sha256};
use std::io;
use std::random::RandomSource;

/// A secret of the system's randomness.
pub(crate) fn new_secret(rt: &HostRuntime) -> io::Result<Secret> {
    let mut secret = [0; SECRET_BYTES];
    rt.fill_bytes(&mut secret)?;
    Ok(secret)
}

/// Its digest, which is all that is kept of it.
pub(crate) fn digest_of(secret: &Secret) -> Digest
    ensures { result ≡ sha256 secret.now }
{
    Sha256::digest(secret)
}

/// Whether two digests are one. It takes the same time wherever they differ.
pub(crate) fn is_same(a: &Digest, b: &Digest) -> bool
    ensures { result ≡ bytes_eq a.now b.now }
{
    same_bytes(a, b)
}
