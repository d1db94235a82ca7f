//! Operations, by the words that they are written in.
ghost use Rattle.std.specs.Prelude.{◌≡◌, IfOk};
ghost use Rattle.line_read.specs.Words.{bytes_of};
ghost use Rattle.line_read.specs.ReadsAs.{ReadsAs};
ghost use Rattle.line_read.specs.Operation.{one_name_list, read_extent, read_object, read_auth, read_rule, read_operation_by, read_operation};

use crate::fail::without_bad;
use crate::numbers::{one_name, one_short, read_name, read_short, two_shorts};
use crate::sets::{read_names, read_numbers, read_rights, read_sign, read_users};
use crate::words::{are_none, both_words, lone_word};
use element_name::NoMemory;
use line_spelling::LineFail;
use policy_book::{AdminOp, Auth, Extent, NameList, SharedAuth};
use std::alloc::Global;

fn one_name_list(alloc: Global, args: &[&[u8]]) -> Result<NameList, LineFail>
    ensures { ReadsAs result (one_name_list (bytes_of args.now)) }
{
    let word = lone_word(args)?;
    read_names(alloc, word)
}

// The extent of an object, by its first word and the others.
#[tactic(auto, unfolding(crate::specs::Operation::read_extent))]
fn read_extent(alloc: Global, word: &[u8], args: &[&[u8]]) -> Result<Extent, LineFail>
    ensures { ReadsAs result (read_extent word.now (bytes_of args.now)) }
{
    if word == b"all".as_slice() {
        return if are_none(args) {
            Ok(Extent::All)
        } else {
            Err(LineFail::Bad)
        };
    }
    if word == b"span".as_slice() {
        let (first, last) = both_words(args)?;
        let first = read_name(first).ok_or(LineFail::Bad)?;
        let last = read_name(last).ok_or(LineFail::Bad)?;
        return Ok(Extent::Span(first, last));
    }
    if word == b"elems".as_slice() {
        return Ok(Extent::Elems(one_name_list(alloc, args)?));
    }
    if word == b"by".as_slice() {
        return Ok(Extent::By(one_short(args)?));
    }
    Err(LineFail::Bad)
}

// An object and its extent.
#[tactic(auto, unfolding(crate::specs::Operation::read_object))]
fn read_object(alloc: Global, args: &[&[u8]]) -> Result<AdminOp, LineFail>
    ensures { ReadsAs result (read_object (bytes_of args.now)) }
{
    let [number, word, args @ ..] = args else {
        return Err(LineFail::Bad);
    };
    let number = read_short(number).ok_or(LineFail::Bad)?;
    let extent = read_extent(alloc, word, args)?;
    Ok(AdminOp::AddObj(number, extent))
}

// A place and the authorization there.
#[tactic(auto, unfolding(crate::specs::Operation::read_auth))]
fn read_auth(alloc: Global, args: &[&[u8]]) -> Result<AdminOp, LineFail>
    ensures { ReadsAs result (read_auth (bytes_of args.now)) }
{
    let [place, sign, users, rights, objects] = args else {
        return Err(LineFail::Bad);
    };
    let place = read_short(place).ok_or(LineFail::Bad)?;
    let grant = read_sign(sign).ok_or(LineFail::Bad)?;
    let rights = read_rights(rights).ok_or(LineFail::Bad)?;
    let users = read_users(alloc, users)?;
    let objects = read_numbers(alloc, objects)?;
    let auth = Auth {
        users,
        rights,
        objects,
        grant,
    };
    let auth = SharedAuth::new(alloc, auth).or(Err(LineFail::NoMemory))?;
    Ok(AdminOp::AddAuth(place, auth))
}

// An operation on objects or authorizations, or a validation, by its first word and the others.
#[tactic(auto, unfolding(crate::specs::Operation::read_rule))]
fn read_rule(alloc: Global, word: &[u8], args: &[&[u8]]) -> Result<AdminOp, LineFail>
    ensures { ReadsAs result (read_rule word.now (bytes_of args.now)) }
{
    if word == b"addobj".as_slice() {
        return read_object(alloc, args);
    }
    if word == b"delobj".as_slice() {
        return Ok(AdminOp::DelObj(one_short(args)?));
    }
    if word == b"addauth".as_slice() {
        return read_auth(alloc, args);
    }
    if word == b"delauth".as_slice() {
        return Ok(AdminOp::DelAuth(one_short(args)?));
    }
    if word == b"validate".as_slice() {
        return Ok(AdminOp::Validate(one_name(args)?));
    }
    Err(LineFail::Bad)
}

// An operation by its first word and the others: on users, groups or members, or another one.
#[tactic(auto, unfolding(crate::specs::Operation::read_operation_by))]
fn read_operation_by(alloc: Global, word: &[u8], args: &[&[u8]]) -> Result<AdminOp, LineFail>
    ensures { ReadsAs result (read_operation_by word.now (bytes_of args.now)) }
{
    if word == b"adduser".as_slice() {
        return Ok(AdminOp::AddUser(one_short(args)?));
    }
    if word == b"deluser".as_slice() {
        return Ok(AdminOp::DelUser(one_short(args)?));
    }
    if word == b"addgroup".as_slice() {
        return Ok(AdminOp::AddGroup(one_short(args)?));
    }
    if word == b"delgroup".as_slice() {
        return Ok(AdminOp::DelGroup(one_short(args)?));
    }
    if word == b"addmember".as_slice() {
        let (group, user) = two_shorts(args)?;
        return Ok(AdminOp::AddMember { group, user });
    }
    if word == b"delmember".as_slice() {
        let (group, user) = two_shorts(args)?;
        return Ok(AdminOp::DelMember { group, user });
    }
    read_rule(alloc, word, args)
}

/// The operation that the words spell.
#[tactic(auto, unfolding(crate::specs::Operation::read_operation))]
pub(crate) fn operation_of(alloc: Global, words: &[&[u8]]) -> Result<AdminOp, LineFail>
    ensures { ReadsAs result (read_operation (bytes_of words.now)) }
{
    match words {
        [word, args @ ..] => read_operation_by(alloc, word, args),
        [] => Err(LineFail::Bad),
    }
}

/// An operation by its words. Takes time and memory in their length.
pub fn read_operation(alloc: Global, words: &[&[u8]]) -> Result<Option<AdminOp>, NoMemory>
    ensures { IfOk result (λ found. found ≡ read_operation (bytes_of words.now)) }
{
    without_bad(operation_of(alloc, words))
}
