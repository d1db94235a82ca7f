//! The former documents of one, looked at where they were put away.

use crate::fault::HouseFault;
use hex::encode;
use host_interface::{HouseDocument, OpenFault};
use host_renewal::Former;
use sha2::{Digest, Sha256};
use std::alloc::{AllocError, Global};
use std::{fs, io};

/// What was found of a former document.
#[derive(Clone, Copy, Debug, PartialEq, Eq)]
pub(crate) enum FormerState {
    /// What it was when its renewal took its place.
    Whole,
    /// Nothing.
    Lost,
    /// A document that can't be opened or has other messages, for this reason.
    Others(OpenFault),
    /// More messages than it had.
    More,
    /// Another certificate, or none.
    OtherCertificate,
}

impl FormerState {
    // The word for it.
    fn word(self) -> &'static str {
        match self {
            FormerState::Whole => "whole",
            FormerState::Lost => "lost",
            FormerState::Others(fault) => fault.word(),
            FormerState::More => "more-messages",
            FormerState::OtherCertificate => "other-certificate",
        }
    }
}

// The folder of documents that were put away.
fn away_path(alloc: Global, folder: &str) -> Result<String, AllocError> {
    format!(in alloc; "{folder}/.archive")
}

// The name of the folder there whose name ends so.
fn find_ending(rt: &HostRuntime, away: &str, ending: &str) -> io::Result<Option<String>> {
    for entry in fs::read_dir(rt, away)? {
        let entry = entry?;
        if entry.file_name().ends_with(ending) {
            return Ok(Some(String::from_str(rt.alloc(), entry.file_name())?));
        }
    }
    Ok(None)
}

// The name of the folder there in which a former document stands. It may have had another name.
fn find_former(rt: &HostRuntime, away: &str, former: &Former) -> io::Result<Option<String>> {
    if !fs::exists(rt, away)? {
        return Ok(None);
    }
    let digits = encode(rt.alloc(), former.identity.as_slice())?;
    let ending = format!(in rt.alloc(); ".{digits}")?;
    find_ending(rt, away, ending.as_str())
}

// Whether the certificate in a folder is the one that a former document had.
fn has_certificate(rt: &HostRuntime, away: &str, name: &str, former: &Former) -> bool {
    let Ok(path) = format!(in rt.alloc(); "{away}/{name}/certificate") else {
        return false;
    };
    match fs::read(rt, path.as_str()) {
        Ok(bytes) => Sha256::digest(bytes.as_slice()) == former.certificate,
        Err(_) => false,
    }
}

// What is found of the messages of a former document in a folder of this name.
fn messages_state<'a, D: HouseDocument<'a>>(
    rt: &'a HostRuntime,
    away: &str,
    name: String,
    former: &Former,
) -> FormerState {
    let mut document = D::new(name, former.identity, Vec::new(rt.alloc()));
    let opened = document.open(rt, away, Some(former.seal));
    let saved = document.saved();
    drop(document);
    match opened {
        Err(fault) => FormerState::Others(fault),
        Ok(()) if saved > former.seal.items => FormerState::More,
        Ok(()) => FormerState::Whole,
    }
}

// What is found of a former document.
fn state_of<'a, D: HouseDocument<'a>>(
    rt: &'a HostRuntime,
    folder: &str,
    former: &Former,
) -> Result<FormerState, HouseFault> {
    let away = away_path(rt.alloc(), folder)?;
    let Some(name) = find_former(rt, away.as_str(), former)? else {
        return Ok(FormerState::Lost);
    };
    let is_certified = has_certificate(rt, away.as_str(), name.as_str(), former);
    match messages_state::<D>(rt, away.as_str(), name, former) {
        FormerState::Whole if !is_certified => Ok(FormerState::OtherCertificate),
        state => Ok(state),
    }
}

/// Looks at a former document of the one of this name, as one of this type, puts a line of it behind others, `NAME before IDENTITY:
/// STATE, COUNT messages`, and says whether it is what it was. COUNT is how many it had.
pub(crate) fn put_former_line<'a, D: HouseDocument<'a>>(
    rt: &'a HostRuntime,
    folder: &str,
    name: &str,
    former: &Former,
    text: &mut String,
) -> Result<bool, HouseFault> {
    let state = state_of::<D>(rt, folder, former)?;
    let digits = encode(rt.alloc(), former.identity.as_slice())?;
    let word = state.word();
    let items = former.seal.items;
    let line = format!(in rt.alloc(); "{name} before {digits}: {word}, {items} messages\n")?;
    text.push_str(line.as_str())?;
    Ok(state == FormerState::Whole)
}
