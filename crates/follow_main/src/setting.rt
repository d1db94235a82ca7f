//! The words of the program.

use crate::address::{Address, address_of};

/// What is followed, and where it is kept.
#[derive(Clone, Copy)]
pub struct Setting<'a> {
    pub address: Address<'a>,
    /// The name of the file that has the peer.
    pub file: &'a str,
}

// The words behind the program's name. One in front of them may be the word `follow`.
fn behind_name(words: &[String]) -> &[String] {
    let words = words.get(1..).unwrap_or(&[]);
    match words.first() {
        Some(first) if first.as_str() == "follow" => words.get(1..).unwrap_or(&[]),
        _ => words,
    }
}

/// What the words say, the program's name among them. None where they name no address and no file.
pub fn setting_of(words: &[String]) -> Option<Setting<'_>> {
    let [address, file] = behind_name(words) else {
        return None;
    };
    Some(Setting {
        address: address_of(address.as_str())?,
        file: file.as_str(),
    })
}
