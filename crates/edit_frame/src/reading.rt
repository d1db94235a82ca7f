//! The fields of a frame, each read as a prefix of the bytes.
ghost use Rattle.std.specs.Prelude.{◌≡◌, ◌<◌, ◌==◌, true, slice_index, Err, Some};
ghost use Rattle.std.specs.Char.{encode_utf8};
ghost use Rattle.std.specs.Str.{chars};
ghost use Rattle.std.specs.Int.{w32, w64};
ghost use Rattle.element_name.specs.Cases.{when};
ghost use Rattle.coop_request.specs.Piece.{is_piece};
ghost use Rattle.edit_frame.specs.Spelling.{is_one_char};
ghost use Rattle.edit_frame.specs.Fields.{big_endian_at, byte_at, short_at, name_at, numbers_at, names_at, extent_at};
ghost use Rattle.edit_frame.specs.Fields.{user_set_at, sign_at, has_bit, rights_at, objects_at, auth_at, has_lists, operation_at};
ghost use Rattle.edit_frame.specs.Fields.{char_at, bytes_at};
ghost use Rattle.edit_frame.specs.Fields.{long_piece_at, letter_at, edit_at, when_passes};
ghost use Rattle.edit_frame.specs.declared.fail.FieldFail.TheVariants.{NoMemory as no_memory};
ghost use Rattle.edit_frame.specs.Gives.{Gives, GivesEdit, MayGive};

use crate::fail::{Bad, FieldFail};
use crate::item::items_of;
use crate::limits::SITES;
use crate::numbers::{
    ADD_AUTH, ADD_GROUP, ADD_MEMBER, ADD_OBJECT, ADD_USER, ALL_RIGHTS, ALLOWING, DEL_AUTH,
    DEL_GROUP, DEL_MEMBER, DEL_OBJECT, DEL_USER, DELETE_KIND, DELETE_WORTH, ELEMENTS, ELEMENTS_BY,
    EVERYONE, EVERYTHING, GROUPS_ABOVE, INSERT_KIND, INSERT_WORTH, PLAIN_VERSION, SPAN,
    UPDATE_KIND, UPDATE_WORTH, VALIDATE,
};
use bytes::Buf;
use coop_request::{LentEdit, LentPiece};
use element_name::{Name, NoMemory};
use policy_book::{AdminOp, Auth, Extent, NameList, NumList, Rights, SharedAuth, UserSet};
use std::alloc::Global;

#[tactic(auto, unfolding(crate::specs::Fields::byte_at))]
fn byte_of(rest: &mut &[u8]) -> Result<u8, Bad>
    ensures { Gives result rest.new.now (byte_at rest.old.now) }
{
    Ok(rest.try_get_u8()?)
}

#[tactic(auto, unfolding(crate::specs::Fields::short_at))]
pub fn short_of(rest: &mut &[u8]) -> Result<u16, Bad>
    ensures { Gives result rest.new.now (short_at rest.old.now) }
{
    Ok(rest.try_get_u16()?)
}

fn u32_of(rest: &mut &[u8]) -> Result<u32, Bad>
    ensures { Gives result rest.new.now (big_endian_at w32 rest.old.now) }
{
    Ok(rest.try_get_u32()?)
}

fn u64_of(rest: &mut &[u8]) -> Result<u64, Bad>
    ensures { Gives result rest.new.now (big_endian_at w64 rest.old.now) }
{
    Ok(rest.try_get_u64()?)
}

#[tactic(auto, unfolding(crate::specs::Fields::name_at))]
pub fn name_of(rest: &mut &[u8]) -> Result<Name, Bad>
    ensures { Gives result rest.new.now (name_at rest.old.now) }
{
    let number = u64_of(rest)?;
    Name::read(number / SITES, (number % SITES) as u16).ok_or(Bad)
}

#[tactic(auto, unfolding(crate::specs::Fields::numbers_at))]
fn numbers_of(alloc: Global, count: u8, rest: &mut &[u8]) -> Result<NumList, FieldFail>
    ensures { MayGive result rest.new.now (numbers_at count rest.old.now) }
{
    let items = items_of(alloc, count, rest)?;
    NumList::checked(items).ok_or(FieldFail::Bad)
}

#[tactic(auto, unfolding(crate::specs::Fields::names_at))]
fn names_of(alloc: Global, count: u8, rest: &mut &[u8]) -> Result<NameList, FieldFail>
    ensures { MayGive result rest.new.now (names_at count rest.old.now) }
{
    let items = items_of(alloc, count, rest)?;
    NameList::checked(items).ok_or(FieldFail::Bad)
}

#[tactic(auto, unfolding(crate::specs::Fields::extent_by, crate::specs::Fields::extent_at))]
fn extent_of(alloc: Global, rest: &mut &[u8]) -> Result<Extent, FieldFail>
    ensures read { MayGive result rest.new.now (extent_at rest.old.now) }
    ensures memory { result ≡ Err no_memory → (slice_index rest.old.now 0 == ELEMENTS) ≡ true }
{
    match byte_of(rest)? {
        EVERYTHING => Ok(Extent::All),
        SPAN => Ok(Extent::Span(name_of(rest)?, name_of(rest)?)),
        ELEMENTS => {
            let count = byte_of(rest)?;
            Ok(Extent::Elems(names_of(alloc, count, rest)?))
        }
        ELEMENTS_BY => Ok(Extent::By(short_of(rest)?)),
        _ => Err(FieldFail::Bad),
    }
}

#[tactic(auto, unfolding(crate::specs::Fields::user_set_by, crate::specs::Fields::user_set_at))]
fn user_set_of(alloc: Global, rest: &mut &[u8]) -> Result<UserSet, FieldFail>
    ensures { MayGive result rest.new.now (user_set_at rest.old.now) }
{
    let count = byte_of(rest)?;
    if count == EVERYONE {
        return Ok(UserSet::All);
    }
    if count <= GROUPS_ABOVE {
        return Ok(UserSet::Listed(numbers_of(alloc, count, rest)?));
    }
    Ok(UserSet::Groups(numbers_of(alloc, count - GROUPS_ABOVE, rest)?))
}

#[tactic(auto, unfolding(crate::specs::Fields::sign_at))]
fn sign_of(rest: &mut &[u8]) -> Result<bool, Bad>
    ensures { Gives result rest.new.now (sign_at rest.old.now) }
{
    let number = byte_of(rest)?;
    if number > ALLOWING {
        return Err(Bad);
    }
    Ok(number == ALLOWING)
}

// Whether the bit of this worth is set.
fn has_bit(worth: u8, number: u8) -> bool
    requires { 0 < worth }
    ensures { result ≡ has_bit worth number }
{
    number / worth % 2 == 1
}

#[tactic(auto, unfolding(crate::specs::Fields::rights_at))]
fn rights_of(rest: &mut &[u8]) -> Result<Rights, Bad>
    ensures { Gives result rest.new.now (rights_at rest.old.now) }
{
    let number = byte_of(rest)?;
    if number > ALL_RIGHTS {
        return Err(Bad);
    }
    let insert = has_bit(INSERT_WORTH, number);
    let delete = has_bit(DELETE_WORTH, number);
    let update = has_bit(UPDATE_WORTH, number);
    Rights::checked(insert, delete, update).ok_or(Bad)
}

#[tactic(auto, unfolding(crate::specs::Fields::objects_at))]
fn objects_of(alloc: Global, rest: &mut &[u8]) -> Result<NumList, FieldFail>
    ensures { MayGive result rest.new.now (objects_at rest.old.now) }
{
    let count = byte_of(rest)?;
    numbers_of(alloc, count, rest)
}

#[tactic(auto, unfolding(crate::specs::Fields::auth_at))]
fn auth_of(alloc: Global, rest: &mut &[u8]) -> Result<SharedAuth, FieldFail>
    ensures { MayGive result rest.new.now (auth_at rest.old.now) }
{
    let grant = sign_of(rest)?;
    let rights = rights_of(rest)?;
    let users = user_set_of(alloc, rest)?;
    let objects = objects_of(alloc, rest)?;
    let auth = Auth {
        users,
        rights,
        objects,
        grant,
    };
    match SharedAuth::new(alloc, auth) {
        Ok(auth) => Ok(auth),
        Err(NoMemory) => Err(FieldFail::NoMemory),
    }
}

#[tactic(auto, unfolding(crate::specs::Fields::operation_by, crate::specs::Fields::operation_at))]
pub fn operation_of(alloc: Global, rest: &mut &[u8]) -> Result<AdminOp, FieldFail>
    ensures read { MayGive result rest.new.now (operation_at rest.old.now) }
    ensures memory { result ≡ Err no_memory → has_lists rest.old.now ≡ true }
{
    match byte_of(rest)? {
        ADD_USER => Ok(AdminOp::AddUser(short_of(rest)?)),
        DEL_USER => Ok(AdminOp::DelUser(short_of(rest)?)),
        ADD_OBJECT => Ok(AdminOp::AddObj(short_of(rest)?, extent_of(alloc, rest)?)),
        DEL_OBJECT => Ok(AdminOp::DelObj(short_of(rest)?)),
        ADD_AUTH => Ok(AdminOp::AddAuth(short_of(rest)?, auth_of(alloc, rest)?)),
        DEL_AUTH => Ok(AdminOp::DelAuth(short_of(rest)?)),
        VALIDATE => Ok(AdminOp::Validate(name_of(rest)?)),
        ADD_GROUP => Ok(AdminOp::AddGroup(short_of(rest)?)),
        DEL_GROUP => Ok(AdminOp::DelGroup(short_of(rest)?)),
        ADD_MEMBER => Ok(AdminOp::AddMember {
            group: short_of(rest)?,
            user: short_of(rest)?,
        }),
        DEL_MEMBER => Ok(AdminOp::DelMember {
            group: short_of(rest)?,
            user: short_of(rest)?,
        }),
        _ => Err(FieldFail::Bad),
    }
}

// The piece of one scalar value, which lies in the room.
fn letter_in(letter: char, room: &mut [u8; 4]) -> Option<LentPiece<'_>>
    ensures { result ≡ Some (encode_utf8 letter) }
{
    let text = letter.encode_utf8(room);
    LentPiece::checked(text.as_bytes())
}

#[tactic(auto, unfolding(crate::specs::Fields::char_at))]
fn char_of<'a>(rest: &mut &'a [u8], room: &'a mut [u8; 4]) -> Result<LentPiece<'a>, Bad>
    ensures { Gives result rest.new.now (char_at rest.old.now) }
{
    let letter = char::from_u32(u32_of(rest)?).ok_or(Bad)?;
    letter_in(letter, room).ok_or(Bad)
}

// The scalar value of a piece that has only one.
pub fn only_char(piece: &LentPiece<'_>) -> Option<char>
    ensures { result ≡ when (is_one_char piece.now) (slice_index (chars piece.now) 0) }
{
    let Ok(text) = std::str::from_utf8(piece.bytes()) else {
        return None;
    };
    let mut letters = text.chars();
    match (letters.next(), letters.next()) {
        (Some(letter), None) => Some(letter),
        _ => None,
    }
}

#[tactic(auto, unfolding(crate::specs::Fields::bytes_at))]
fn piece_bytes_of<'a>(count: u8, rest: &mut &'a [u8]) -> Result<LentPiece<'a>, Bad>
    ensures { Gives result rest.new.now (when_passes is_piece (bytes_at count) rest.old.now) }
{
    let count = count as usize;
    if rest.len() < count {
        return Err(Bad);
    }
    let (prefix, after) = rest.split_at(count);
    *rest = after;
    LentPiece::checked(prefix).ok_or(Bad)
}

#[tactic(auto, unfolding(crate::specs::Fields::long_piece_at, crate::specs::Fields::is_long_piece))]
fn long_piece_of<'a>(rest: &mut &'a [u8]) -> Result<LentPiece<'a>, Bad>
    ensures { Gives result rest.new.now (long_piece_at rest.old.now) }
{
    let count = byte_of(rest)?;
    let piece = piece_bytes_of(count, rest)?;
    if only_char(&piece).is_some() {
        return Err(Bad);
    }
    Ok(piece)
}

#[tactic(auto, unfolding(crate::specs::Fields::letter_at))]
fn letter_of<'a>(
    version: u8,
    rest: &mut &'a [u8],
    room: &'a mut [u8; 4],
) -> Result<LentPiece<'a>, Bad>
    ensures { Gives result rest.new.now (letter_at version rest.old.now) }
{
    if version == PLAIN_VERSION {
        char_of(rest, room)
    } else {
        long_piece_of(rest)
    }
}

#[tactic(auto, unfolding(crate::specs::Fields::edit_at))]
pub fn edit_of<'a>(
    version: u8,
    kind: u8,
    rest: &mut &'a [u8],
    room: &'a mut [u8; 4],
) -> Result<LentEdit<'a>, Bad>
    ensures { GivesEdit result rest.new.now (edit_at version kind rest.old.now) }
{
    match kind {
        INSERT_KIND => Ok(LentEdit::Insert {
            after: name_of(rest)?,
            letter: letter_of(version, rest, room)?,
        }),
        DELETE_KIND => Ok(LentEdit::Delete {
            target: name_of(rest)?,
        }),
        UPDATE_KIND => Ok(LentEdit::Update {
            target: name_of(rest)?,
            letter: letter_of(version, rest, room)?,
        }),
        _ => Err(Bad),
    }
}
