//! The forms that certify a journal, and that check a certificate.
//!
//! [`certify_stream`] takes a stream of frames in, and writes the journal that it leaves with its certificate.
//! [`audit_input`] reads such a writing, and says whether it holds.
//!
//! It knows streams of frames, and a certificate's bytes.
//! It must not know files, links and threads.
#![tactic(auto)]

mod auditing;
mod certifying;
pub mod laws;

pub use auditing::audit_input;
pub use certifying::certify_stream;
