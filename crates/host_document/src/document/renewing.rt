//! Links to documents whose place another one has taken.
ghost use Rattle.std.specs.Prelude.{◌≡◌};
ghost use Rattle.host_document.specs.Renewed.{claimed_former};

use host_link::Claim;
use host_renewal::{Former, is_former};

/// Whether a link knows a document whose place this one has taken.
pub(super) fn claims_former(formers: &[Former], claim: &Claim) -> bool
    ensures { result ≡ claimed_former formers.now claim.now.document }
{
    match &claim.document {
        Some(identity) => is_former(formers, identity),
        None => false,
    }
}
