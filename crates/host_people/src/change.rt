//! What changes of people.

use host_core::Role;
use std::alloc::AllocError;

/// How many bytes a secret has.
pub const SECRET_BYTES: usize = 16;

/// What the holder of an invitation or a device shows.
pub type Secret = [u8; SECRET_BYTES];

/// The SHA-256 of a secret.
pub type Digest = [u8; 32];

/// A change. Persons, invitations and sites have numbers of their own, from 1.
#[derive(Debug, Drop, PartialEq, Eq)]
pub enum Change {
    /// A person was made, with a role and a name.
    Made {
        person: u16,
        role: Role,
        name: String,
    },
    /// A person was given another role.
    GivenRole {
        person: u16,
        role: Role,
    },
    /// A person was given another name.
    Renamed {
        person: u16,
        name: String,
    },
    /// An invitation was made for a person, with a secret of this digest.
    Invited {
        invitation: u16,
        person: u16,
        digest: Digest,
    },
    /// An invitation was closed.
    Uninvited {
        invitation: u16,
    },
    /// A device was made for a person, with a site and a secret of this digest.
    Joined {
        site: u16,
        person: u16,
        digest: Digest,
    },
    /// A device was closed.
    Left {
        site: u16,
    },
}

/// The word for a role.
pub fn role_word(role: Role) -> &'static str {
    match role {
        Role::Owner => "owner",
        Role::Writer => "writer",
        Role::Reader => "reader",
    }
}

/// The role of this word.
pub fn role_of_word(word: &str) -> Option<Role> {
    match word.as_bytes() {
        b"owner" => Some(Role::Owner),
        b"writer" => Some(Role::Writer),
        b"reader" => Some(Role::Reader),
        _ => None,
    }
}

// A copy of a name.
pub(crate) fn copy_of(name: &String) -> Result<String, AllocError> {
    String::from_str(*name.allocator(), name.as_str())
}
