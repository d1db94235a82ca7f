//! Orders of owners about people and documents.

use crate::naming::{is_document_name, is_person_name};
use host_core::Role;
use host_people::role_of_word;

/// An order about people or documents.
#[derive(Clone, Copy)]
pub enum HouseOrder<'a> {
    /// A person with a role and a name.
    Person { role: Role, name: &'a str },
    /// An invitation of a person.
    Invite { person: u16 },
    /// Another role of a person.
    SetRole { person: u16, role: Role },
    /// Another name of a person.
    Rename { person: u16, name: &'a str },
    /// No more of an invitation.
    CloseInvitation { invitation: u16 },
    /// No more of a device.
    CloseDevice { site: u16 },
    /// All invitations and devices.
    Keys,
    /// All documents.
    Documents,
    /// A document.
    Make { name: &'a str },
    /// Another name of a document.
    Move { from: &'a str, to: &'a str },
    /// A document out of the way.
    Archive { name: &'a str },
    /// A renewal of a document, which takes its place.
    Renew { name: &'a str },
    /// The same of the document that the link leads to.
    RenewHere,
}

// A number.
fn number_of(word: &str) -> Option<u16> {
    word.parse::<u16>().ok()
}

// A name of a person.
fn person_name(name: &str) -> Option<&str> {
    is_person_name(name).then_some(name)
}

// A name of a document.
fn document_name(name: &str) -> Option<&str> {
    is_document_name(name).then_some(name)
}

fn read_person(rest: &str) -> Option<HouseOrder<'_>> {
    let (role, name) = rest.split_once(' ')?;
    let role = role_of_word(role)?;
    let name = person_name(name)?;
    Some(HouseOrder::Person { role, name })
}

fn read_role(rest: &str) -> Option<HouseOrder<'_>> {
    let (person, role) = rest.split_once(' ')?;
    let person = number_of(person)?;
    let role = role_of_word(role)?;
    Some(HouseOrder::SetRole { person, role })
}

fn read_rename(rest: &str) -> Option<HouseOrder<'_>> {
    let (person, name) = rest.split_once(' ')?;
    let person = number_of(person)?;
    let name = person_name(name)?;
    Some(HouseOrder::Rename { person, name })
}

fn read_close(rest: &str) -> Option<HouseOrder<'_>> {
    let (kind, number) = rest.split_once(' ')?;
    let number = number_of(number)?;
    match kind.as_bytes() {
        b"invitation" => Some(HouseOrder::CloseInvitation { invitation: number }),
        b"device" => Some(HouseOrder::CloseDevice { site: number }),
        _ => None,
    }
}

fn read_move(rest: &str) -> Option<HouseOrder<'_>> {
    let (from, to) = rest.split_once(' ')?;
    let from = document_name(from)?;
    let to = document_name(to)?;
    Some(HouseOrder::Move { from, to })
}

// An order of one word.
fn read_word<'a>(word: &str) -> Option<HouseOrder<'a>> {
    match word.as_bytes() {
        b"keys" => Some(HouseOrder::Keys),
        b"documents" => Some(HouseOrder::Documents),
        b"renew" => Some(HouseOrder::RenewHere),
        _ => None,
    }
}

/// Reads an order about people or documents: `person ROLE NAME`, `invite PERSON`, `role PERSON ROLE`, `rename PERSON NAME`,
/// `close invitation NUMBER`, `close device SITE`, `keys`, `documents`, `make NAME`, `move NAME NAME`, `archive NAME`,
/// `renew NAME`, `renew`.
pub fn read_house_order(line: &str) -> Option<HouseOrder<'_>> {
    let Some((word, rest)) = line.split_once(' ') else {
        return read_word(line);
    };
    match word.as_bytes() {
        b"person" => read_person(rest),
        b"invite" => Some(HouseOrder::Invite {
            person: number_of(rest)?,
        }),
        b"role" => read_role(rest),
        b"rename" => read_rename(rest),
        b"close" => read_close(rest),
        b"make" => Some(HouseOrder::Make {
            name: document_name(rest)?,
        }),
        b"move" => read_move(rest),
        b"archive" => Some(HouseOrder::Archive {
            name: document_name(rest)?,
        }),
        b"renew" => Some(HouseOrder::Renew {
            name: document_name(rest)?,
        }),
        _ => None,
    }
}
