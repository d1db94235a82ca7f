//! What a request shows of a device.

use hex::decode_to_slice;
use host_people::{SECRET_BYTES, Secret};
use std::str;

/// How many hex digits a secret is spelled by.
pub const SECRET_DIGITS: usize = 2 * SECRET_BYTES;

/// A device by its site, with its secret.
#[derive(Clone, Copy)]
pub struct Credential {
    pub site: u16,
    pub secret: Secret,
}

impl Credential {
    /// Reads `SITE.SECRET`: a decimal number, and hex digits.
    pub fn read(text: &str) -> Option<Credential> {
        let (site, digits) = text.split_once('.')?;
        Credential::of_words(site, digits)
    }

    /// The credential that these two words spell.
    pub fn of_words(site: &str, digits: &str) -> Option<Credential> {
        let Ok(site) = site.parse::<u16>() else {
            return None;
        };
        let mut secret = [0; SECRET_BYTES];
        if decode_to_slice(digits, &mut secret).is_err() {
            return None;
        }
        Some(Credential { site, secret })
    }

    // Reads the value of a field `Authorization`: `Bearer SITE.SECRET`.
    pub(crate) fn of_field(value: &[u8]) -> Option<Credential> {
        let Ok(text) = str::from_utf8(value) else {
            return None;
        };
        Credential::read(text.strip_prefix("Bearer ")?)
    }
}
