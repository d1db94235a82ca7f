//! A host on the net: HTTP and WebSockets on one port, in one loop and one thread, over the documents of a folder.
//!
//! It knows connections and the clock. Who may ask for what, what is saved and what a link is given is decided below: this
//! crate is trusted for handing over what it was given, to the link that it was given for.
#![tactic(auto)]

mod conn;
mod desk;
mod entrance;
mod found;
mod linking;
mod opening;
mod pushing;
mod room;
mod running;
mod saving;
mod serving;
mod telling;
mod trying;
mod web;

pub use desk::Desk;
