//! The first messages of a link.

use crate::limits::PROTOCOL;
use hex::decode_to_slice;
use host_people::{SECRET_BYTES, Secret};

/// The identity of a document.
pub type Identity = [u8; 16];

/// What a link says of itself: the document that it knows, if it knows one, its site with its secret, and how much of the
/// journal it has.
#[derive(Clone, Copy)]
pub struct Claim {
    pub document: Option<Identity>,
    pub site: u16,
    pub secret: Secret,
    pub from: u32,
}

/// What a link says first.
#[derive(Clone, Copy)]
pub enum Opening {
    /// It shows the secret of an invitation, and wants to be a device.
    Join { secret: Secret },
    /// It is a device.
    Hello(Claim),
}

/// Why a first message is none.
#[derive(Clone, Copy, Debug, PartialEq, Eq)]
pub enum NotOpening {
    /// It is of another version of the protocol.
    OtherVersion,
    /// It is none of this version.
    Bad,
}

// The bytes that hex digits spell.
fn secret_of(digits: &str) -> Option<Secret> {
    let mut secret = [0; SECRET_BYTES];
    match decode_to_slice(digits, &mut secret) {
        Ok(()) => Some(secret),
        Err(_) => None,
    }
}

// The identity that a word spells, or none for `-`. None where it spells nothing.
fn document_of(word: &str) -> Option<Option<Identity>> {
    if word == "-" {
        return Some(None);
    }
    let mut identity = [0; 16];
    match decode_to_slice(word, &mut identity) {
        Ok(()) => Some(Some(identity)),
        Err(_) => None,
    }
}

fn read_join(rest: &str) -> Option<Opening> {
    let secret = secret_of(rest)?;
    Some(Opening::Join { secret })
}

// Reads `DOCUMENT SITE SECRET FROM`.
fn read_hello(rest: &str) -> Option<Opening> {
    let (document, rest) = rest.split_once(' ')?;
    let (site, rest) = rest.split_once(' ')?;
    let (secret, from) = rest.split_once(' ')?;
    let document = document_of(document)?;
    let secret = secret_of(secret)?;
    let Ok(site) = site.parse::<u16>() else {
        return None;
    };
    let Ok(from) = from.parse::<u32>() else {
        return None;
    };
    Some(Opening::Hello(Claim {
        document,
        site,
        secret,
        from,
    }))
}

/// Reads `join VERSION SECRET` or `hello VERSION DOCUMENT SITE SECRET FROM`.
pub fn read_opening(text: &str) -> Result<Opening, NotOpening> {
    let (word, rest) = text.split_once(' ').ok_or(NotOpening::Bad)?;
    let (version, rest) = rest.split_once(' ').ok_or(NotOpening::Bad)?;
    let version = version.parse::<u32>().map_err(|_| NotOpening::Bad)?;
    if version != PROTOCOL {
        return Err(NotOpening::OtherVersion);
    }
    let read = match word.as_bytes() {
        b"join" => read_join(rest),
        b"hello" => read_hello(rest),
        _ => None,
    };
    read.ok_or(NotOpening::Bad)
}
