//! A device without a browser: `follow ADDRESS FILE` keeps a peer of a host's document in a file, and talks with the program
//! beside it line by line.
//!
//! It knows words, sockets, streams, files and the clock. What a line or a message does is decided below.
#![tactic(auto)]

mod address;
mod closing;
mod device;
mod dial;
mod edge;
mod inlet;
mod input;
mod link;
mod opening;
mod output;
mod pushing;
mod renewed;
mod setting;
mod socket;
mod stage;
mod told;

use edge::Edge;
use line_engine::Status;
use setting::{Setting, setting_of};
use std::process::ExitCode;
use std::sync::Wait;
use std::{env, io};

// How the program is called.
const USAGE: &str =
    "follow ADDRESS FILE\n  ADDRESS is http://HOST:PORT/d/DOCUMENT/#SECRET, with the secret of an invitation, or #SITE.SECRET of a device;\n  without # once FILE has a device. An invitation's own address names no document: put d/DOCUMENT/ in front of its #\n  FILE keeps the text, and FILE.device the device";

// The words that the program was started with.
fn words(rt: &HostRuntime) -> io::Result<Vec<String>> {
    let mut words = Vec::new(rt.alloc());
    for word in env::args(rt)? {
        words.push(word)?;
    }
    Ok(words)
}

// Follows, until the input has ended or it can't go on.
fn follow(rt: &HostRuntime, wait: &impl Wait, set: Setting<'_>) -> Status {
    match Edge::new(rt, set) {
        Ok(mut edge) => {
            let status = edge.run(wait);
            drop(edge);
            status
        }
        Err(status) => status,
    }
}

// Says how the program is called.
fn tell_usage(rt: &HostRuntime) -> Status {
    let _ = eprintln!(rt; "{USAGE}");
    Status::Usage
}

// Does what the words say.
fn run(rt: &HostRuntime, wait: &impl Wait, words: &[String]) -> Status {
    match setting_of(words) {
        Some(set) => follow(rt, wait, set),
        None => tell_usage(rt),
    }
}

fn main(rt: HostRuntime) -> ExitCode {
    let Ok(words) = words(&rt) else {
        return ExitCode::from(Status::NoMemory.code());
    };
    let status = run(&rt, &rt, &words);
    drop(words);
    ExitCode::from(status.code())
}
