//! Laws of certificates.
ghost use Rattle.audit_cert.specs.Laws.{GrantingLaw};
ghost use Rattle.audit_cert.specs.Samples.{CertificateOfSample};

/// A request of another user than 0 is granted exactly where an authorization grants it: so its grants are of the
/// versions before the first that denies it, and of all where none does.
pub fn granted_by_authorization()
    ensures { GrantingLaw }
{}

/// What the definition computes on a small journal.
pub fn sample_certificate()
    ensures { CertificateOfSample }
{}
