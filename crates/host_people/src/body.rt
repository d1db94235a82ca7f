//! A change as bytes, as the file keeps it.
//!
//! A body is a kind, and its fields: numbers of two bytes with the highest first, a role of one, a digest of 32, and a name
//! in UTF-8 to the end.

ghost use Rattle.std.specs.Prelude.{◌≡◌, ◌++◌, IfOk, IfSome, OnOk, string_bytes};
ghost use Rattle.host_people.specs.declared.kinds.TheConstants.{MADE, GIVEN_ROLE, RENAMED};
ghost use Rattle.host_people.specs.Bodies.{role_byte, change_head, holder_fields, change_body};

use crate::change::{Change, Digest};
use crate::kinds::{GIVEN_ROLE, INVITED, JOINED, LEFT, MADE, RENAMED, UNINVITED};
use element_name::NoMemory;
use host_core::Role;
use std::alloc::{AllocError, Global};
use std::str;

// The byte of a role.
fn role_byte(role: Role) -> u8
    ensures { result ≡ role_byte role }
{
    match role {
        Role::Owner => 1,
        Role::Writer => 2,
        Role::Reader => 3,
    }
}

// The role of a byte.
fn role_of(byte: u8) -> Option<Role>
    ensures { IfSome result (λ role. role_byte role ≡ byte) }
{
    match byte {
        1 => Some(Role::Owner),
        2 => Some(Role::Writer),
        3 => Some(Role::Reader),
        _ => None,
    }
}

// Appends a kind and a number.
fn put_head(out: &mut Vec<u8>, kind: u8, number: u16) -> Result<(), AllocError>
    ensures { OnOk result (out.new.items ≡ out.old.items ++ change_head kind number) }
{
    let [high, low] = number.to_be_bytes();
    out.extend_from_slice(&[kind, high, low])
}

// Appends a kind, a number, the number of a person and a digest.
fn put_held(
    out: &mut Vec<u8>,
    kind: u8,
    number: u16,
    person: u16,
    digest: &Digest,
) -> Result<(), AllocError>
    ensures { OnOk result (out.new.items ≡ out.old.items ++ change_head kind number ++ holder_fields person digest.now) }
{
    put_head(out, kind, number)?;
    let [high, low] = person.to_be_bytes();
    out.extend_from_slice(&[high, low])?;
    out.extend_from_slice(digest.as_slice())
}

// Appends the body of a change.
fn put_change(out: &mut Vec<u8>, change: &Change) -> Result<(), AllocError>
    ensures { OnOk result (out.new.items ≡ out.old.items ++ change_body change.now) }
{
    match change {
        Change::Made { person, role, name } => {
            put_head(out, MADE, *person)?;
            out.extend_from_slice(&[role_byte(*role)])?;
            out.extend_from_slice(name.as_str().as_bytes())
        }
        Change::GivenRole { person, role } => {
            put_head(out, GIVEN_ROLE, *person)?;
            out.extend_from_slice(&[role_byte(*role)])
        }
        Change::Renamed { person, name } => {
            put_head(out, RENAMED, *person)?;
            out.extend_from_slice(name.as_str().as_bytes())
        }
        Change::Invited {
            invitation,
            person,
            digest,
        } => put_held(out, INVITED, *invitation, *person, digest),
        Change::Uninvited { invitation } => put_head(out, UNINVITED, *invitation),
        Change::Joined {
            site,
            person,
            digest,
        } => put_held(out, JOINED, *site, *person, digest),
        Change::Left { site } => put_head(out, LEFT, *site),
    }
}

/// The body of a change. Takes memory for it.
pub fn body_of(alloc: Global, change: &Change) -> Result<Vec<u8>, NoMemory>
    ensures { IfOk result (λ body. body.items ≡ change_body change.now) }
{
    let mut out = Vec::new(alloc);
    put_change(&mut out, change)?;
    Ok(out)
}

// The name that is all of these bytes.
fn name_of(alloc: Global, bytes: &[u8]) -> Result<Option<String>, NoMemory>
    ensures { IfOk result (λ found. IfSome found (λ name. string_bytes name ≡ bytes.now)) }
{
    match str::from_utf8(bytes) {
        Ok(name) => Ok(Some(String::from_str(alloc, name)?)),
        Err(_) => Ok(None),
    }
}

// A change with a role and a name behind it.
fn made_of(alloc: Global, person: u16, fields: &[u8]) -> Result<Option<Change>, NoMemory>
    ensures { IfOk result (λ found. IfSome found (λ change. change_body change ≡ change_head MADE person ++ fields.now)) }
{
    let [role, name @ ..] = fields else {
        return Ok(None);
    };
    let Some(role) = role_of(*role) else {
        return Ok(None);
    };
    match name_of(alloc, name)? {
        Some(name) => Ok(Some(Change::Made { person, role, name })),
        None => Ok(None),
    }
}

// A change with a role alone.
fn role_change_of(person: u16, fields: &[u8]) -> Option<Change>
    ensures { IfSome result (λ change. change_body change ≡ change_head GIVEN_ROLE person ++ fields.now) }
{
    let [role] = fields else {
        return None;
    };
    let role = role_of(*role)?;
    Some(Change::GivenRole { person, role })
}

// A change with a name alone.
fn renamed_of(alloc: Global, person: u16, fields: &[u8]) -> Result<Option<Change>, NoMemory>
    ensures { IfOk result (λ found. IfSome found (λ change. change_body change ≡ change_head RENAMED person ++ fields.now)) }
{
    match name_of(alloc, fields)? {
        Some(name) => Ok(Some(Change::Renamed { person, name })),
        None => Ok(None),
    }
}

// The number of a person and the digest that are all of these bytes.
fn held_of(fields: &[u8]) -> Option<(u16, Digest)>
    ensures { IfSome result (λ held. holder_fields held.0 held.1 ≡ fields.now) }
{
    let [high, low, rest @ ..] = fields else {
        return None;
    };
    if rest.len() != 32 {
        return None;
    }
    let mut digest = [0; 32];
    digest.copy_from_slice(rest);
    Some((u16::from_be_bytes([*high, *low]), digest))
}

// A change with the number of a person and a digest: an invitation was made, or a device.
fn held_change_of(kind: u8, number: u16, fields: &[u8]) -> Option<Change>
    ensures { IfSome result (λ change. change_body change ≡ change_head kind number ++ fields.now) }
{
    let (person, digest) = held_of(fields)?;
    match kind {
        INVITED => Some(Change::Invited {
            invitation: number,
            person,
            digest,
        }),
        JOINED => Some(Change::Joined {
            site: number,
            person,
            digest,
        }),
        _ => None,
    }
}

/// The change whose body these bytes are; none where they are no body. Takes memory for a name.
pub fn read_change(alloc: Global, body: &[u8]) -> Result<Option<Change>, NoMemory>
    ensures { IfOk result (λ found. IfSome found (λ change. change_body change ≡ body.now)) }
{
    let [kind, high, low, fields @ ..] = body else {
        return Ok(None);
    };
    let number = u16::from_be_bytes([*high, *low]);
    match *kind {
        MADE => made_of(alloc, number, fields),
        GIVEN_ROLE => Ok(role_change_of(number, fields)),
        RENAMED => renamed_of(alloc, number, fields),
        INVITED | JOINED => Ok(held_change_of(*kind, number, fields)),
        UNINVITED if fields.is_empty() => Ok(Some(Change::Uninvited { invitation: number })),
        LEFT if fields.is_empty() => Ok(Some(Change::Left { site: number })),
        _ => Ok(None),
    }
}
