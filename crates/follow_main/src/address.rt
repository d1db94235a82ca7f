//! Addresses of documents.
ghost use Rattle.std.specs.Prelude.{◌≡◌, ◌<◌, length, take, IfSome};
ghost use Rattle.follow_main.specs.Addresses.{before_byte, after_byte, IsPlace, IsKey, IsAddress};

/// What stands behind the `#` of an address.
#[derive(Clone, Copy)]
pub enum Key<'a> {
    /// The secret of an invitation.
    Invitation(&'a str),
    /// A device's site and its secret.
    Device { site: u16, secret: &'a str },
    /// Nothing.
    None,
}

/// The address of a document: its host with a port, its path without the slashes at both its ends, and its key.
#[derive(Clone, Copy)]
pub struct Address<'a> {
    pub host: &'a str,
    pub port: u16,
    pub path: &'a str,
    pub key: Key<'a>,
}

// The port of HTTP.
const USUAL_PORT: u16 = 80;

// A host and a port.
fn host_and_port(place: &str) -> Option<(&str, u16)>
    ensures { IfSome result (λ r. IsPlace place.now r.0.now r.1) }
{
    match place.rsplit_once(':') {
        None => Some((place, USUAL_PORT)),
        Some((host, port)) => {
            let port = port.parse::<u16>().ok()?;
            Some((host.trim_start_matches('[').trim_end_matches(']'), port))
        }
    }
}

// What stands behind the `#`.
fn key_of(words: &str) -> Key<'_>
    ensures { IsKey words.now result }
{
    if words.is_empty() {
        return Key::None;
    }
    if let Some((site, secret)) = words.split_once('.') {
        if let Ok(site) = site.parse::<u16>() {
            return Key::Device { site, secret };
        }
    }
    Key::Invitation(words)
}

// What stands behind the first `/d/` of a path whose first slash isn't there.
fn document_of(path: &str) -> Option<&str> {
    match path.strip_prefix("d/") {
        Some(name) => Some(name),
        None => {
            let (_, name) = path.split_once("/d/")?;
            Some(name)
        }
    }
}

// The path of a document, without the slashes at its end; none where it is no document's.
fn path_of(path: &str) -> Option<&str>
    ensures { IfSome result (λ p. p.now ≡ take (length p.now) path.now) }
{
    let name = document_of(path)?;
    if name.trim_end_matches('/').is_empty() {
        return None;
    }
    Some(path.trim_end_matches('/'))
}

// A text up to the first of some letter, and what stands behind that; nothing where it isn't there.
fn parted(text: &str, letter: char) -> (&str, &str)
    ensures front { letter < 128 → result.0.now ≡ before_byte letter text.now }
    ensures back { letter < 128 → result.1.now ≡ after_byte letter text.now }
{
    match text.split_once(letter) {
        Some((front, back)) => (front, back),
        None => (text, ""),
    }
}

/// Reads `http://HOST:PORT/d/DOCUMENT/#SECRET`, or with another path in front of `/d/`; none where it isn't so.
pub fn address_of(text: &str) -> Option<Address<'_>>
    ensures { IfSome result (λ a. IsAddress text.now a) }
{
    let (rest, words) = parted(text.strip_prefix("http://")?, '#');
    let (place, path) = parted(rest, '/');
    let (host, port) = host_and_port(place)?;
    Some(Address {
        host,
        port,
        path: path_of(path)?,
        key: key_of(words),
    })
}
