//! The bytes of frames.
ghost use Rattle.std.specs.Prelude.{◌≡◌, ◌+◌, ◌≤◌, true, ◌∷◌, ◌++◌, length, OnOk, OnErr, IfOk};
ghost use Rattle.std.specs.List.{flat_map};
ghost use Rattle.edit_frame.specs.Spelling.{short_bytes, name_bytes, extent_bytes, user_set_bytes, flag, rights_bytes};
ghost use Rattle.edit_frame.specs.Spelling.{auth_bytes, operation_number, operation_fields};
ghost use Rattle.edit_frame.specs.Spelling.{letter_bytes, letter_version, edit_version, edit_kind, edit_bytes, request_fields};
ghost use Rattle.edit_frame.specs.Spelling.{entry_fields};
ghost use Rattle.edit_frame.specs.Spelling.{body, spelling};
ghost use Rattle.edit_frame.specs.Spells.{is_frame, Spells};

use crate::frame::Frame;
use crate::item::put_items;
use crate::limits::{MAX_LENGTH, SITES};
use crate::numbers::{
    ADD_AUTH, ADD_GROUP, ADD_MEMBER, ADD_OBJECT, ADD_USER, ALLOWING, DEL_AUTH, DEL_GROUP,
    DEL_MEMBER, DEL_OBJECT, DEL_USER, DELETE_KIND, DELETE_WORTH, ELEMENTS, ELEMENTS_BY, END_KIND,
    ENTRY_KIND, EVERYONE, EVERYTHING, GROUPS_ABOVE, INSERT_KIND, INSERT_WORTH, LONG_VERSION,
    PLAIN_VERSION, SPAN, TURN_KIND, UPDATE_KIND, UPDATE_WORTH, VALIDATE,
};
use crate::reading::only_char;
use bytes::BufMut;
use coop_request::{Edit, Piece, Request};
use edit_message::Message;
use element_name::{Name, NoMemory};
use policy_book::{AdminOp, Auth, Entry, Extent, NumList, Rights, UserSet};
use std::alloc::{AllocError, Global};

#[tactic(auto, unfolding(crate::specs::Spelling::short_bytes))]
pub fn put_short(out: &mut Vec<u8>, n: u16) -> Result<(), AllocError>
    ensures { OnOk result (out.new.items ≡ out.old.items ++ short_bytes n) }
{
    out.put_u16(n)
}

#[tactic(auto, unfolding(crate::specs::Spelling::name_bytes))]
pub fn put_name(out: &mut Vec<u8>, n: Name) -> Result<(), AllocError>
    ensures { OnOk result (out.new.items ≡ out.old.items ++ name_bytes n) }
{
    out.put_u64(n.stamp() * SITES + u64::from(n.site()))
}

// A count, to which `more` is added, and the numbers.
fn put_numbers(out: &mut Vec<u8>, more: u8, numbers: &NumList) -> Result<(), AllocError>
    requires { more ≤ GROUPS_ABOVE }
    ensures { OnOk result (out.new.items ≡ out.old.items ++ ((length numbers.now + more) ∷ flat_map short_bytes numbers.now)) }
{
    let numbers = numbers.as_slice();
    out.put_u8(numbers.len() as u8 + more)?;
    put_items(out, numbers)
}

#[tactic(auto, unfolding(crate::specs::Spelling::extent_bytes))]
fn put_extent(out: &mut Vec<u8>, x: &Extent) -> Result<(), AllocError>
    ensures { OnOk result (out.new.items ≡ out.old.items ++ extent_bytes x.now) }
{
    match x {
        Extent::All => out.put_u8(EVERYTHING),
        Extent::Span(first, last) => {
            out.put_u8(SPAN)?;
            put_name(out, *first)?;
            put_name(out, *last)
        }
        Extent::Elems(names) => {
            let names = names.as_slice();
            out.put_u8(ELEMENTS)?;
            out.put_u8(names.len() as u8)?;
            put_items(out, names)
        }
        Extent::By(user) => {
            out.put_u8(ELEMENTS_BY)?;
            put_short(out, *user)
        }
    }
}

#[tactic(auto, unfolding(crate::specs::Spelling::user_set_bytes))]
fn put_user_set(out: &mut Vec<u8>, users: &UserSet) -> Result<(), AllocError>
    ensures { OnOk result (out.new.items ≡ out.old.items ++ user_set_bytes users.now) }
{
    match users {
        UserSet::All => out.put_u8(EVERYONE),
        UserSet::Listed(numbers) => put_numbers(out, 0, numbers),
        UserSet::Groups(numbers) => put_numbers(out, GROUPS_ABOVE, numbers),
    }
}

fn flag(worth: u8, set: bool) -> u8
    ensures { result ≡ flag worth set }
{
    if set { worth } else { 0 }
}

#[tactic(auto, unfolding(crate::specs::Spelling::rights_bytes))]
fn put_rights(out: &mut Vec<u8>, r: Rights) -> Result<(), AllocError>
    ensures { OnOk result (out.new.items ≡ out.old.items ++ rights_bytes r) }
{
    let insert = flag(INSERT_WORTH, r.insert());
    let delete = flag(DELETE_WORTH, r.delete());
    let update = flag(UPDATE_WORTH, r.update());
    out.put_u8(insert + delete + update)
}

#[tactic(auto, unfolding(crate::specs::Spelling::auth_bytes, crate::specs::Spelling::objects_bytes))]
fn put_auth(out: &mut Vec<u8>, a: &Auth) -> Result<(), AllocError>
    ensures { OnOk result (out.new.items ≡ out.old.items ++ auth_bytes a.now) }
{
    out.put_u8(flag(ALLOWING, a.grant))?;
    put_rights(out, a.rights)?;
    put_user_set(out, &a.users)?;
    put_numbers(out, 0, &a.objects)
}

fn operation_number(op: &AdminOp) -> u8
    ensures { result ≡ operation_number op.now }
{
    match op {
        AdminOp::AddUser(_) => ADD_USER,
        AdminOp::DelUser(_) => DEL_USER,
        AdminOp::AddObj(_, _) => ADD_OBJECT,
        AdminOp::DelObj(_) => DEL_OBJECT,
        AdminOp::AddAuth(_, _) => ADD_AUTH,
        AdminOp::DelAuth(_) => DEL_AUTH,
        AdminOp::Validate(_) => VALIDATE,
        AdminOp::AddGroup(_) => ADD_GROUP,
        AdminOp::DelGroup(_) => DEL_GROUP,
        AdminOp::AddMember { .. } => ADD_MEMBER,
        AdminOp::DelMember { .. } => DEL_MEMBER,
    }
}

#[tactic(auto, unfolding(crate::specs::Spelling::operation_fields))]
fn put_operation(out: &mut Vec<u8>, op: &AdminOp) -> Result<(), AllocError>
    ensures { OnOk result (out.new.items ≡ out.old.items ++ operation_fields op.now) }
{
    match op {
        AdminOp::AddUser(n)
        | AdminOp::DelUser(n)
        | AdminOp::DelObj(n)
        | AdminOp::DelAuth(n)
        | AdminOp::AddGroup(n)
        | AdminOp::DelGroup(n) => put_short(out, *n),
        AdminOp::AddObj(object, extent) => {
            put_short(out, *object)?;
            put_extent(out, extent)
        }
        AdminOp::AddAuth(place, auth) => {
            put_short(out, *place)?;
            put_auth(out, auth.get())
        }
        AdminOp::Validate(n) => put_name(out, *n),
        AdminOp::AddMember { group, user } | AdminOp::DelMember { group, user } => {
            put_short(out, *group)?;
            put_short(out, *user)
        }
    }
}

#[tactic(auto, unfolding(crate::specs::Spelling::letter_bytes))]
fn put_letter(out: &mut Vec<u8>, piece: &Piece) -> Result<(), AllocError>
    ensures { OnOk result (out.new.items ≡ out.old.items ++ letter_bytes piece.now) }
{
    let bytes = piece.bytes();
    match only_char(&piece.lent()) {
        Some(letter) => out.put_u32(letter as u32),
        None => {
            out.put_u8(bytes.len() as u8)?;
            out.put_slice(bytes)
        }
    }
}

#[tactic(auto, unfolding(crate::specs::Spelling::edit_bytes))]
fn put_edit(out: &mut Vec<u8>, e: &Edit) -> Result<(), AllocError>
    ensures { OnOk result (out.new.items ≡ out.old.items ++ edit_bytes e.now) }
{
    match e {
        Edit::Insert { after, letter } => {
            put_name(out, *after)?;
            put_letter(out, letter)
        }
        Edit::Delete { target } => put_name(out, *target),
        Edit::Update { target, letter } => {
            put_name(out, *target)?;
            put_letter(out, letter)
        }
    }
}

fn letter_version(piece: &Piece) -> u8
    ensures { result ≡ letter_version piece.now }
{
    if only_char(&piece.lent()).is_some() {
        PLAIN_VERSION
    } else {
        LONG_VERSION
    }
}

fn edit_version(e: &Edit) -> u8
    ensures { result ≡ edit_version e.now }
{
    match e {
        Edit::Insert { letter, .. } | Edit::Update { letter, .. } => letter_version(letter),
        Edit::Delete { .. } => PLAIN_VERSION,
    }
}

fn edit_kind(e: &Edit) -> u8
    ensures { result ≡ edit_kind e.now }
{
    match e {
        Edit::Insert { .. } => INSERT_KIND,
        Edit::Delete { .. } => DELETE_KIND,
        Edit::Update { .. } => UPDATE_KIND,
    }
}

fn put_request(out: &mut Vec<u8>, q: Request) -> Result<(), AllocError>
    ensures { OnOk result (out.new.items ≡ out.old.items ++ (edit_version q.edit ∷ edit_kind q.edit ∷ request_fields q)) }
{
    let edit = q.edit();
    out.put_u8(edit_version(&edit))?;
    out.put_u8(edit_kind(&edit))?;
    put_name(out, q.id())?;
    put_short(out, q.version() as u16)?;
    put_edit(out, &edit)
}

fn put_entry(out: &mut Vec<u8>, e: &Entry) -> Result<(), AllocError>
    ensures { OnOk result (out.new.items ≡ out.old.items ++ (PLAIN_VERSION ∷ ENTRY_KIND ∷ entry_fields e.now)) }
{
    out.put_u8(PLAIN_VERSION)?;
    out.put_u8(ENTRY_KIND)?;
    put_short(out, e.version() as u16)?;
    out.put_u8(operation_number(e.op()))?;
    put_operation(out, e.op())
}

#[tactic(auto, unfolding(crate::specs::Spelling::fields))]
fn put_body(out: &mut Vec<u8>, f: &Frame) -> Result<(), AllocError>
    ensures { OnOk result (out.new.items ≡ out.old.items ++ body f.now) }
{
    match f {
        Frame::Item(Message::Coop(request)) => put_request(out, *request),
        Frame::Item(Message::Admin(entry)) => put_entry(out, entry),
        Frame::Turn => {
            out.put_u8(PLAIN_VERSION)?;
            out.put_u8(TURN_KIND)
        }
        Frame::End => {
            out.put_u8(PLAIN_VERSION)?;
            out.put_u8(END_KIND)
        }
    }
}

// Looks at a message's parts, whose types keep them in their ranges, and does nothing else.
fn frame_in_range(f: &Frame)
    ensures { is_frame f.now ≡ true }
{
    match f {
        Frame::Item(message) => {
            let _ = message.key();
        }
        Frame::Turn | Frame::End => {}
    }
}

fn body_of(alloc: Global, frame: &Frame) -> Result<Vec<u8>, AllocError>
    ensures { IfOk result (λ b. b.items ≡ body frame.now) }
{
    let mut bytes = Vec::with_capacity(alloc, MAX_LENGTH as usize)?;
    put_body(&mut bytes, frame)?;
    Ok(bytes)
}

/// Puts the one spelling of the frame at the end, in time in its length, at most 280 bytes. Fails where memory is
/// wanting, and has then put nothing. Takes memory for the body alone, and gives it back.
#[tactic(auto, unfolding(crate::specs::Spelling::spelling))]
pub fn encode(alloc: Global, frame: &Frame, out: &mut Vec<u8>) -> Result<(), NoMemory>
    ensures ok { OnOk result (out.new.items ≡ out.old.items ++ spelling frame.now) }
    ensures spells { Spells (spelling frame.now) frame.now }
    ensures err { OnErr result (out.new.items ≡ out.old.items) }
{
    frame_in_range(frame);
    let body = body_of(alloc, frame)?;
    let before = out.len();
    out.put_u32(body.len() as u32)?;
    if out.put_slice(&body).is_err() {
        out.truncate(before);
        return Err(NoMemory);
    }
    Ok(())
}
