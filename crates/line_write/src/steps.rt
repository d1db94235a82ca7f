//! Operations, messages and steps.
ghost use Rattle.std.specs.Prelude.{◌≡◌, ◌++◌, ◌∷◌, [], OnOk, OnErr, decimal};
ghost use Rattle.line_spelling.specs.Values.{behind_spaces};
ghost use Rattle.line_spelling.specs.Steps.{extent_words, auth_words, operation_words, edit_words, message_text, local_words, step_text};

use crate::values::{
    put, put_name_word, put_names, put_number_word, put_numbered, put_numbers, put_piece_word,
    put_rights, put_users,
};
use coop_request::Edit;
use edit_message::Message;
use element_name::NoMemory;
use peer_step::{LocalEdit, Step};
use policy_book::{AdminOp, Auth, Extent};
use std::alloc::Global;

// Appends an extent's words, each behind a space.
fn put_extent(line: &mut Vec<u8>, extent: &Extent) -> Result<(), NoMemory>
    ensures { OnOk result (line.new.items ≡ line.old.items ++ behind_spaces (extent_words extent.now)) }
{
    match extent {
        Extent::All => put(line, b" all"),
        Extent::Span(first, last) => {
            put(line, b" span")?;
            put_name_word(line, *first)?;
            put_name_word(line, *last)
        }
        Extent::Elems(names) => {
            put(line, b" elems ")?;
            put_names(line, names.as_slice())
        }
        Extent::By(user) => put_numbered(line, b"by", u32::from(*user)),
    }
}

// Appends an authorization's words, each behind a space.
fn put_auth(line: &mut Vec<u8>, auth: &Auth) -> Result<(), NoMemory>
    ensures { OnOk result (line.new.items ≡ line.old.items ++ behind_spaces (auth_words auth.now)) }
{
    if auth.grant {
        put(line, b" + ")?;
    } else {
        put(line, b" - ")?;
    }
    put_users(line, &auth.users)?;
    put(line, b" ")?;
    put_rights(line, auth.rights)?;
    put(line, b" ")?;
    put_numbers(line, auth.objects.as_slice())
}

// Appends a word with two numbers.
fn put_paired(line: &mut Vec<u8>, word: &[u8], group: u16, user: u16) -> Result<(), NoMemory>
    ensures { OnOk result (line.new.items ≡ line.old.items ++ behind_spaces (word.now ∷ decimal group ∷ decimal user ∷ [])) }
{
    put_numbered(line, word, u32::from(group))?;
    put_number_word(line, u64::from(user))
}

// Appends an operation's words, each behind a space.
fn put_operation(line: &mut Vec<u8>, op: &AdminOp) -> Result<(), NoMemory>
    ensures { OnOk result (line.new.items ≡ line.old.items ++ behind_spaces (operation_words op.now)) }
{
    match op {
        AdminOp::AddUser(user) => put_numbered(line, b"adduser", u32::from(*user)),
        AdminOp::DelUser(user) => put_numbered(line, b"deluser", u32::from(*user)),
        AdminOp::AddObj(number, extent) => {
            put_numbered(line, b"addobj", u32::from(*number))?;
            put_extent(line, extent)
        }
        AdminOp::DelObj(number) => put_numbered(line, b"delobj", u32::from(*number)),
        AdminOp::AddGroup(group) => put_numbered(line, b"addgroup", u32::from(*group)),
        AdminOp::DelGroup(group) => put_numbered(line, b"delgroup", u32::from(*group)),
        AdminOp::AddMember { group, user } => put_paired(line, b"addmember", *group, *user),
        AdminOp::DelMember { group, user } => put_paired(line, b"delmember", *group, *user),
        AdminOp::AddAuth(place, auth) => {
            put_numbered(line, b"addauth", u32::from(*place))?;
            put_auth(line, auth.get())
        }
        AdminOp::DelAuth(place) => put_numbered(line, b"delauth", u32::from(*place)),
        AdminOp::Validate(name) => {
            put(line, b" validate")?;
            put_name_word(line, *name)
        }
    }
}

// Appends an edit's words, each behind a space.
fn put_edit(line: &mut Vec<u8>, edit: Edit) -> Result<(), NoMemory>
    ensures { OnOk result (line.new.items ≡ line.old.items ++ behind_spaces (edit_words edit)) }
{
    match edit {
        Edit::Insert { after, letter } => {
            put(line, b" insert")?;
            put_name_word(line, after)?;
            put_piece_word(line, letter.bytes())
        }
        Edit::Delete { target } => {
            put(line, b" delete")?;
            put_name_word(line, target)
        }
        Edit::Update { target, letter } => {
            put(line, b" update")?;
            put_name_word(line, target)?;
            put_piece_word(line, letter.bytes())
        }
    }
}

/// Appends a message.
pub(crate) fn put_message(line: &mut Vec<u8>, message: &Message) -> Result<(), NoMemory>
    ensures { OnOk result (line.new.items ≡ line.old.items ++ message_text message.now) }
{
    match message {
        Message::Coop(request) => {
            put(line, b"request")?;
            put_name_word(line, request.id())?;
            put_number_word(line, u64::from(request.version()))?;
            put_edit(line, request.edit())
        }
        Message::Admin(entry) => {
            put(line, b"entry")?;
            put_number_word(line, u64::from(entry.version()))?;
            put_operation(line, entry.op())
        }
    }
}

// Appends the words of an edit at a place, each behind a space.
fn put_local_edit(line: &mut Vec<u8>, edit: LocalEdit) -> Result<(), NoMemory>
    ensures { OnOk result (line.new.items ≡ line.old.items ++ behind_spaces (local_words edit)) }
{
    match edit {
        LocalEdit::Insert { at, letter } => {
            put_numbered(line, b"insert", at)?;
            put_piece_word(line, letter.bytes())
        }
        LocalEdit::Delete { at } => put_numbered(line, b"delete", at),
        LocalEdit::Update { at, letter } => {
            put_numbered(line, b"update", at)?;
            put_piece_word(line, letter.bytes())
        }
    }
}

// Appends a step.
fn put_step(line: &mut Vec<u8>, step: &Step) -> Result<(), NoMemory>
    ensures { OnOk result (line.new.items ≡ line.old.items ++ step_text step.now) }
{
    match step {
        Step::Edit(edit) => {
            put(line, b"edit")?;
            put_local_edit(line, *edit)
        }
        Step::Administer(op) => {
            put(line, b"admin")?;
            put_operation(line, op)
        }
        Step::Receive(message) => {
            put(line, b"message ")?;
            put_message(line, message)
        }
        Step::Settle => put(line, b"settle"),
        Step::ValidateNext => put(line, b"validatenext"),
        Step::Look { from } => {
            put(line, b"look")?;
            put_number_word(line, u64::from(*from))
        }
        Step::Show => put(line, b"show"),
    }
}

/// Appends a message as the lines of scripts have it. Takes time in the length of what is appended.
pub fn message_text(alloc: Global, message: &Message, out: &mut Vec<u8>) -> Result<(), NoMemory>
    ensures ok { OnOk result (out.new.items ≡ out.old.items ++ message_text message.now) }
    ensures unchanged { OnErr result (out.new.items ≡ out.old.items) }
{
    let mut line = Vec::new(alloc);
    put_message(&mut line, message)?;
    out.extend_from_slice(&line)?;
    Ok(())
}

/// Appends the step line of a step, without a line end. Takes time in the length of what is appended.
pub fn step_text(alloc: Global, step: &Step, out: &mut Vec<u8>) -> Result<(), NoMemory>
    ensures ok { OnOk result (out.new.items ≡ out.old.items ++ step_text step.now) }
    ensures unchanged { OnErr result (out.new.items ≡ out.old.items) }
{
    let mut line = Vec::new(alloc);
    put_step(&mut line, step)?;
    out.extend_from_slice(&line)?;
    Ok(())
}
