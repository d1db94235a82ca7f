//! Certificates of journals: for each request its state, and the authorizations that granted it.
//!
//! A certificate follows from the journal alone, so that who has both may check the one by the other.
//!
//! It knows a journal as bytes, its certificate, and where the two don't agree.
//! It must not know the peer that wrote them, and where they came from.
#![tactic(auto)]

mod anchors;
mod auditing;
mod basis;
mod elements;
mod fail;
mod fault;
mod findings;
mod grant;
mod granting;
mod ids;
mod judging;
mod kept_frame;
pub mod laws;
mod lines;
mod making;
mod opening;
mod order;
mod ranks;
mod rematch;

pub use auditing::audit;
pub use fail::CertFail;
pub use fault::AuditFault;
pub use making::certify;
