//! Messages that came before what they need.
//!
//! It knows messages, the order in which they came, and what each waits for.
//! It must not know what becomes of a message that is let go.
#![tactic(auto)]

mod awaited;
mod fault;
mod held;
mod hold;
mod index;
pub mod laws;
mod need;
mod parcel;
mod row;
mod ticket;

pub use fault::HoldFault;
pub use held::Held;
pub use hold::{Due, HoldBack, MAX_HELD};
pub use need::Need;
