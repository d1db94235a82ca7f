//! The words of the program.

use clap::{Arg, ArgAction, Command};
use std::alloc::{AllocError, Global};

// A word with a value, that has another value where it isn't given.
fn with_default<'a>(alloc: Global, name: &'a str, value: &'a str, help: &'a str) -> Arg<'a> {
    Arg::new(alloc, name)
        .long(name)
        .action(ArgAction::Set)
        .default_value(value)
        .help(help)
}

fn folder<'a>(alloc: Global) -> Arg<'a> {
    Arg::new(alloc, "folder")
        .required(true)
        .action(ArgAction::Set)
        .value_name("FOLDER")
        .help("where the documents and the people are kept")
}

fn port<'a>(alloc: Global) -> Arg<'a> {
    with_default(alloc, "port", "7000", "the port that it listens on")
}

fn listen<'a>(alloc: Global) -> Arg<'a> {
    with_default(
        alloc,
        "listen",
        "127.0.0.1",
        "the address of this machine that it listens on",
    )
}

fn web<'a>(alloc: Global) -> Arg<'a> {
    with_default(alloc, "web", "web", "the folder of the page")
}

fn origin<'a>(alloc: Global) -> Arg<'a> {
    Arg::new(alloc, "origin")
        .long("origin")
        .action(ArgAction::Append)
        .value_name("ORIGIN")
        .help(
            "where else the page is reached, as https://notes.example.org/team; the first stands in invitations",
        )
}

fn new_owner_key<'a>(alloc: Global) -> Arg<'a> {
    Arg::new(alloc, "new-owner-key")
        .long("new-owner-key")
        .action(ArgAction::SetTrue)
        .help("prints one more invitation of the first owner")
}

fn behind_proxy<'a>(alloc: Global) -> Arg<'a> {
    Arg::new(alloc, "behind-proxy")
        .long("behind-proxy")
        .action(ArgAction::SetTrue)
        .help(
            "takes a proxy's word on where each request comes from: the last address of X-Forwarded-For",
        )
}

// A command with one more argument, if there was memory until now.
fn with<'a>(
    command: Result<Command<'a>, AllocError>,
    argument: Arg<'a>,
) -> Result<Command<'a>, AllocError> {
    match command {
        Ok(command) => command.arg(argument),
        Err(error) => {
            drop(argument);
            Err(error)
        }
    }
}

// A command with one more word that was made.
fn with_made<'a>(
    command: Result<Command<'a>, AllocError>,
    word: Command<'a>,
) -> Result<Command<'a>, AllocError> {
    match command {
        Ok(command) => command.subcommand(word),
        Err(error) => {
            drop(word);
            Err(error)
        }
    }
}

// A command with one more word that begins a command of its own.
fn with_word<'a>(
    command: Result<Command<'a>, AllocError>,
    word: Result<Command<'a>, AllocError>,
) -> Result<Command<'a>, AllocError> {
    match word {
        Ok(word) => with_made(command, word),
        Err(error) => {
            drop(command);
            Err(error)
        }
    }
}

// The word `host` with what may follow it.
fn host<'a>(alloc: Global) -> Result<Command<'a>, AllocError> {
    let host = Ok(Command::new(alloc, "host").about("serves the documents of a folder to a team"));
    let host = with(host, folder(alloc));
    let host = with(host, port(alloc));
    let host = with(host, listen(alloc));
    let host = with(host, web(alloc));
    let host = with(host, origin(alloc));
    let host = with(host, behind_proxy(alloc));
    with(host, new_owner_key(alloc))
}

// The word `verify` with what follows it.
fn verify<'a>(alloc: Global) -> Result<Command<'a>, AllocError> {
    let verify = Command::new(alloc, "verify").about(
        "opens each document of a folder, and says what it found",
    );
    with(Ok(verify), folder(alloc))
}

/// The words of the program.
pub fn all_words<'a>(alloc: Global) -> Result<Command<'a>, AllocError> {
    let all = Command::new(alloc, "roastcliff")
        .version("1")
        .subcommand_required(true);
    let all = with_word(Ok(all), host(alloc));
    with_word(all, verify(alloc))
}
