//! The texts that a host says.

use host_link::PROTOCOL;

/// What a host says to a link that it lets in.
#[derive(Clone, Copy)]
pub struct Welcome<'a> {
    pub identity: &'a str,
    pub site: u16,
    pub person: u16,
    pub role: &'a str,
    pub saved: u32,
}

/// A text of a host.
#[derive(Clone, Copy)]
pub enum HostText<'a> {
    /// A device was made, with this secret.
    Device { site: u16, secret: &'a str },
    /// The link is let in.
    Welcome(Welcome<'a>),
    /// News, in lines.
    News(&'a str),
}

// Reads `SITE SECRET`.
fn read_device(rest: &str) -> Option<HostText<'_>> {
    let (site, secret) = rest.split_once(' ')?;
    let site = site.parse::<u16>().ok()?;
    Some(HostText::Device { site, secret })
}

// Reads `VERSION IDENTITY SITE PERSON ROLE SAVED`.
fn read_welcome(rest: &str) -> Option<HostText<'_>> {
    let (version, rest) = rest.split_once(' ')?;
    let (identity, rest) = rest.split_once(' ')?;
    let (site, rest) = rest.split_once(' ')?;
    let (person, rest) = rest.split_once(' ')?;
    let (role, saved) = rest.split_once(' ')?;
    if version.parse::<u32>().ok()? != PROTOCOL {
        return None;
    }
    Some(HostText::Welcome(Welcome {
        identity,
        site: site.parse::<u16>().ok()?,
        person: person.parse::<u16>().ok()?,
        role,
        saved: saved.parse::<u32>().ok()?,
    }))
}

/// Reads a text of a host. None where it begins as `device` or `welcome`, and is none.
pub fn read_host_text(text: &str) -> Option<HostText<'_>> {
    if let Some(rest) = text.strip_prefix("welcome ") {
        return read_welcome(rest);
    }
    if let Some(rest) = text.strip_prefix("device ") {
        return read_device(rest);
    }
    Some(HostText::News(text))
}
