//! What the words say.

use anyhow::{Result, anyhow};
use clap::ArgMatches;
use std::alloc::{AllocError, Global};
use std::net::{IpAddr, SocketAddr};

/// What is to be done.
#[derive(Drop)]
pub enum Task {
    /// To serve a folder.
    Host(Setting),
    /// To look at the documents of a folder.
    Verify(String),
}

/// How a folder is served.
#[derive(Drop)]
pub struct Setting {
    pub folder: String,
    pub web: String,
    pub listen: SocketAddr,
    /// The address of the first page, with its last slash.
    pub address: String,
    pub origins: Vec<String>,
    pub behind_proxy: bool,
    pub new_owner_key: bool,
}

// Where to listen.
fn listen_of(matches: &ArgMatches<'_>) -> Result<SocketAddr> {
    let Some(port) = matches.get_one::<u16>("port") else {
        return Err(anyhow!("--port is a number from 1 to 65535"));
    };
    let Some(ip) = matches.get_one::<IpAddr>("listen") else {
        return Err(anyhow!("--listen is an address of this machine, as 0.0.0.0"));
    };
    Ok(SocketAddr::from((ip, port)))
}

// The origin of an address: all of it up to its path.
fn origin_of(alloc: Global, address: &str) -> Result<String, AllocError> {
    let Some((scheme, rest)) = address.split_once("://") else {
        return String::from_str(alloc, address);
    };
    let host = match rest.split_once('/') {
        Some((host, _)) => host,
        None => rest,
    };
    format!(in alloc; "{scheme}://{host}")
}

// The places of this machine at the port, and those that were named.
fn origins_of(
    alloc: Global,
    matches: &ArgMatches<'_>,
    port: u16,
) -> Result<Vec<String>, AllocError> {
    let mut origins = Vec::new(alloc);
    origins.push(format!(in alloc; "http://localhost:{port}")?)?;
    origins.push(format!(in alloc; "http://127.0.0.1:{port}")?)?;
    origins.push(format!(in alloc; "http://[::1]:{port}")?)?;
    if let Some(named) = matches.get_strs("origin") {
        for place in named {
            origins.push(origin_of(alloc, place)?)?;
        }
    }
    Ok(origins)
}

// The address of the first page: at the first named place, or on this machine.
fn address_of(alloc: Global, matches: &ArgMatches<'_>, port: u16) -> Result<String, AllocError> {
    match matches.get_str("origin") {
        Some(place) => {
            let place = place.trim_end_matches('/');
            format!(in alloc; "{place}/")
        }
        None => format!(in alloc; "http://localhost:{port}/"),
    }
}

// What the words behind `host` say.
fn host_setting(alloc: Global, matches: &ArgMatches<'_>) -> Result<Setting> {
    let listen = listen_of(matches)?;
    let port = listen.port();
    Ok(Setting {
        folder: folder_of(alloc, matches)?,
        web: String::from_str(alloc, matches.get_str("web").unwrap_or("web"))?,
        listen,
        address: address_of(alloc, matches, port)?,
        origins: origins_of(alloc, matches, port)?,
        behind_proxy: matches.get_flag("behind-proxy"),
        new_owner_key: matches.get_flag("new-owner-key"),
    })
}

// The folder that the words behind `host` or `verify` name.
fn folder_of(alloc: Global, matches: &ArgMatches<'_>) -> Result<String, AllocError> {
    let folder = matches.get_str("folder").unwrap_or("");
    String::from_str(alloc, folder.trim_end_matches('/'))
}

/// What the words say is to be done.
pub fn task_of(alloc: Global, matches: &ArgMatches<'_>) -> Result<Task> {
    if let Some(inner) = matches.subcommand_matches("host") {
        return Ok(Task::Host(host_setting(alloc, inner)?));
    }
    match matches.subcommand_matches("verify") {
        Some(inner) => Ok(Task::Verify(folder_of(alloc, inner)?)),
        None => Err(anyhow!("roastcliff host FOLDER (--help tells more)")),
    }
}
