//! Why bytes are no journal with its certificate.
ghost use Rattle.std.specs.Prelude.{◌≡◌};
ghost use Rattle.audit_cert.specs.declared.fault.AuditFault.TheVariants as faults;

use edit_frame::FrameFault;
use element_name::NoMemory;

/// Why bytes are no journal with its certificate. Of several reasons the first is told.
#[derive(Clone, Copy, Debug, PartialEq, Eq)]
pub enum AuditFault {
    /// A frame before the first End is none, or the bytes end before an End.
    BadFrame(FrameFault),
    /// The frame of this number, from 1, is the first that is no message, or with which the messages are no journal, or
    /// one above its limits.
    NotJournal(usize),
    /// The line of this number, from 1, of what stands behind End is the first that isn't that of the certificate, is
    /// wanting or is too much.
    Differs(usize),
    /// Memory was wanting.
    NoMemory,
}

impl From<NoMemory> for AuditFault {
    ghost from_gives = { λ _ f. f ≡ faults.NoMemory };

    fn from(_e: NoMemory) -> AuditFault {
        AuditFault::NoMemory
    }
}
