//! Names of documents and persons.

use crate::limits::MAX_NAME;

// A small letter or a digit.
fn is_plain(byte: u8) -> bool {
    byte.is_ascii_lowercase() || byte.is_ascii_digit()
}

/// Whether a document may be called so: 1 to 40 small letters, digits and `-`, a letter or a digit first.
pub fn is_document_name(name: &str) -> bool {
    let bytes = name.as_bytes();
    let begins = match bytes.first() {
        Some(first) => is_plain(*first),
        None => false,
    };
    begins && bytes.len() <= MAX_NAME && bytes.iter().all(|it| is_plain(*it) || *it == b'-')
}

// A sign that turns the direction of what stands around it.
fn is_turning(letter: char) -> bool {
    matches!(letter, '\u{200e}' | '\u{200f}' | '\u{061c}' | '\u{202a}'..='\u{202e}' | '\u{2066}'..='\u{2069}')
}

/// Whether a person may be called so: 1 to 40 scalar values, none of them a control sign or one that turns directions, and
/// no space at an end.
pub fn is_person_name(name: &str) -> bool {
    if name.is_empty() || name.starts_with(' ') || name.ends_with(' ') {
        return false;
    }
    name.chars().count() <= MAX_NAME && !name.chars().any(|it| it.is_control() || is_turning(it))
}
