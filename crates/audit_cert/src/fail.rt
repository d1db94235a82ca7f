//! Why there is no certificate.
ghost use Rattle.std.specs.Prelude.{◌≡◌};
ghost use Rattle.audit_cert.specs.declared.fail.CertFail.TheVariants as fails;

use element_name::NoMemory;

/// Why messages have no certificate.
#[derive(Clone, Copy, Debug, PartialEq, Eq)]
pub enum CertFail {
    /// The message of this number, from 1, is the first with which they are no journal, or one above its limits.
    NotJournal(usize),
    /// Memory was wanting.
    NoMemory,
}

impl From<NoMemory> for CertFail {
    ghost from_gives = { λ _ f. f ≡ fails.NoMemory };

    fn from(_e: NoMemory) -> CertFail {
        CertFail::NoMemory
    }
}
