//! The shared editor's program: the top call over standard input, standard output and links on this machine.
//!
//! It knows the words of the command line, every form, and the edge: streams, files and sockets.
//! It must not know what any form does with its input.
#![tactic(auto)]

mod command;
mod editor_call;
mod form;
pub mod laws;
mod limits;
mod plain_call;
mod stored_call;
mod word;

use command::{Command, command_of};
use edit_io::{ReadSource, Sink, Source, WriteSink};
pub use editor_call::editor;
use line_engine::Status;
use link_ws::TcpDoor;
use peer_disk::FileDisk;
pub use plain_call::plain;
use race_run::FreeGate;
use std::alloc::{AllocError, Global};
use std::process::ExitCode;
use std::rt::Env;
use std::{env, io, str};
pub use stored_call::stored;
pub use word::Word;

// The words behind the program's name.
fn words<R: Env + AllocGlobal>(rt: &R) -> io::Result<Vec<Word>> {
    let mut all = Vec::new(rt.alloc());
    for word in env::args(rt)?.skip(1) {
        all.push(Word::new(word.into_bytes()))?;
    }
    Ok(all)
}

// The name of the file that the last word says.
fn file_name(alloc: Global, words: &[Word]) -> Result<String, AllocError> {
    let Some(word) = words.last() else {
        return Ok(String::new(alloc));
    };
    match str::from_utf8(word.bytes()) {
        Ok(name) => String::from_str(alloc, name),
        Err(_) => Ok(String::new(alloc)),
    }
}

// Keeps a peer in the file that the last word names.
fn keep_in_file<S: Source, K: Sink>(
    rt: &HostRuntime,
    words: &[Word],
    source: &mut S,
    sink: &mut K,
) -> Status {
    let Ok(name) = file_name(rt.alloc(), words) else {
        return Status::NoMemory;
    };
    stored(
        rt.alloc(),
        words,
        source,
        sink,
        &mut FileDisk::new(rt, name),
    )
}

fn main(rt: HostRuntime) -> ExitCode {
    let words = match words(&rt) {
        Ok(words) => words,
        Err(e) if e.kind() == io::ErrorKind::OutOfMemory => {
            return ExitCode::from(Status::NoMemory.code());
        }
        // Words that aren't UTF-8 name no form, and neither do none.
        Err(_) => Vec::new(rt.alloc()),
    };
    let mut source = ReadSource::new(rt.stdin());
    let mut sink = WriteSink::new(rt.stdout());
    if let Some(Command::Keep(_)) = command_of(&words) {
        return ExitCode::from(keep_in_file(&rt, &words, &mut source, &mut sink).code());
    }
    let mut door = TcpDoor::new(rt, rt.alloc());
    let status = editor(
        &rt,
        rt.alloc(),
        &words,
        &mut source,
        &mut sink,
        &mut door,
        &FreeGate,
    );
    ExitCode::from(status.code())
}
