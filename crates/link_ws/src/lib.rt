//! Links over WebSockets on this machine, and the door that gives them.
//!
//! One binary message of a socket carries one message of a link. Nothing is claimed of what the other end
//! sends or gets: a link and a door here tell their counts alone.
//!
//! It knows sockets of this machine, and messages of bytes.
//! It must not know frames, sessions and peers.
#![tactic(auto)]

mod hasty;
pub mod laws;
mod origin;
mod tcp_door;
mod ws_link;

pub use hasty::HastyStream;
pub use tcp_door::{TcpDoor, TcpLink};
pub use ws_link::{MAX_MESSAGE, WsLink};
