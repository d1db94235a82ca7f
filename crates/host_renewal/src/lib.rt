//! How a host's document is renewed: a keeper makes a renewal of a peer, and a row has those whose place a document has taken.
//!
//! It knows peers, keepers, seals and digests. It must not know files and folders, and who asks for a renewal.
#![tactic(auto)]

mod fault;
mod former;
mod making;

pub use fault::RenewalFault;
pub use former::{FORMER_BYTES, Former, formers_of, is_former, put_former};
pub use making::make_renewal;
