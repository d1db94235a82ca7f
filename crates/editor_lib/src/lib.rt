//! One peer for programs that aren't Rattle: functions that C, or a page's script, can call.
//!
//! The calls are in `calls`, and `include/editor.h` says in words what each promises. A call takes the desk out of its slot,
//! makes of it what `Desk` does, and puts it back.
//!
//! It knows one peer, and memory that its caller lends.
//! It must not know threads, files and links.
#![tactic(auto)]

mod calls;
mod code;
mod desk;
mod journal;
mod lines;
mod question;
mod shown;
mod slot;
mod told;
mod would;
