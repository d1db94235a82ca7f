//! Sessions: two peers that take turns on a link.
//!
//! A side sends what its journal has gained since its last turn, and then a turn; and it takes what comes until
//! the other side's turn. What a pass and a link show of a session is a row of events, of which each may come
//! where it stands; a fault cuts the row.
//!
//! It knows frames, two journals, and one link.
//! It must not know how many links there are, and the threads that they run on.
#![tactic(auto)]

mod backlog;
mod dialling;
mod fault;
mod frames;
mod serving;
mod steps;
mod turns;

pub use dialling::dial_link;
pub use fault::SessionFault;
pub use serving::serve_link;
