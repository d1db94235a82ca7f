//! Sockets that don't wait, on one thread: what is read of them and sent on them, and what becomes of each behind it. With
//! them a host's limits and times, what it counts, what it notes for its log, and which wrong keys came from where.
//!
//! It knows streams and messages of sockets. It knows no document and no person, and not what a message says.
#![tactic(auto)]

mod counts;
mod happening;
pub mod laws;
mod limits;
mod socket;
mod stream;
mod wrong_keys;

pub use counts::Counts;
pub use happening::Happening;
pub use limits::Limits;
pub use socket::{
    After, Came, Socket, accepted, after_error, await_close, flush, next_message, no_memory,
    send_close, send_frames, send_ping, send_text,
};
pub use stream::{read_some, write_some};
pub use wrong_keys::{MAX_WRONG_KEYS, Network, WrongKey, WrongKeys};
