//! What a host says to a link.

use crate::limits::PROTOCOL;
use crate::opening::Identity;
use hex::encode;
use host_core::Role;
use host_people::{People, Secret, role_word};
use std::alloc::{AllocError, Global};

/// `device SITE SECRET`: a device that was made, with its secret.
pub fn device_text(alloc: Global, site: u16, secret: &Secret) -> Result<String, AllocError> {
    let digits = encode(alloc, secret.as_slice())?;
    format!(in alloc; "device {site} {digits}")
}

/// `welcome VERSION DOCUMENT SITE PERSON ROLE SAVED`: a link is admitted, and so many messages are saved.
pub fn welcome_text(
    alloc: Global,
    identity: &Identity,
    site: u16,
    person: u16,
    role: Role,
    saved: u32,
) -> Result<String, AllocError> {
    let document = encode(alloc, identity.as_slice())?;
    let role = role_word(role);
    format!(in alloc; "welcome {PROTOCOL} {document} {site} {person} {role} {saved}")
}

/// `people`, with a line `person PERSON ROLE NAME` for each person and `device SITE PERSON` for each device, with ` closed` behind it where it
/// was closed.
pub fn people_text(alloc: Global, people: &People) -> Result<String, AllocError> {
    let mut text = String::from_str(alloc, "people")?;
    for (number, role) in people.roles() {
        let role = role_word(*role);
        let name = people.name(*number);
        let line = format!(in alloc; "\nperson {number} {role} {name}")?;
        text.push_str(line.as_str())?;
    }
    for (site, holder) in people.devices() {
        let person = holder.person;
        let state = if holder.is_open { "" } else { " closed" };
        let line = format!(in alloc; "\ndevice {site} {person}{state}")?;
        text.push_str(line.as_str())?;
    }
    Ok(text)
}

/// `caret SITE WORDS`: where the caret of a site is.
pub fn caret_text(alloc: Global, site: u16, words: &str) -> Result<String, AllocError> {
    format!(in alloc; "caret {site} {words}")
}
