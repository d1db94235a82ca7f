//! Lists of numbers and names, users, rights and signs, as words.
ghost use Rattle.std.specs.Prelude.{◌≡◌};
ghost use Rattle.line_read.specs.ReadsAs.{ReadsAs};
ghost use Rattle.line_read.specs.Sets.{read_numbers, read_names, read_users, read_rights, read_sign};

use crate::item::read_each;
use crate::words::parts;
use line_spelling::{COMMA, GROUP_SIGN, LineFail};
use policy_book::{NameList, NumList, Rights, UserSet};
use std::alloc::Global;

/// Numbers joined by `,`.
#[tactic(auto, unfolding(crate::specs::Sets::read_numbers))]
pub(crate) fn read_numbers(alloc: Global, word: &[u8]) -> Result<NumList, LineFail>
    ensures { ReadsAs result (read_numbers word.now) }
{
    let words = parts(alloc, COMMA, word)?;
    let numbers = read_each(alloc, &words)?;
    NumList::checked(numbers).ok_or(LineFail::Bad)
}

/// Names joined by `,`.
#[tactic(auto, unfolding(crate::specs::Sets::read_names))]
pub(crate) fn read_names(alloc: Global, word: &[u8]) -> Result<NameList, LineFail>
    ensures { ReadsAs result (read_names word.now) }
{
    let words = parts(alloc, COMMA, word)?;
    let names = read_each(alloc, &words)?;
    NameList::checked(names).ok_or(LineFail::Bad)
}

/// Everyone, numbers of users, or numbers of groups behind `@`.
#[tactic(auto, unfolding(crate::specs::Sets::read_users))]
pub(crate) fn read_users(alloc: Global, word: &[u8]) -> Result<UserSet, LineFail>
    ensures { ReadsAs result (read_users word.now) }
{
    if word == b"all".as_slice() {
        return Ok(UserSet::All);
    }
    match word {
        [] => Err(LineFail::Bad),
        [GROUP_SIGN, groups @ ..] => Ok(UserSet::Groups(read_numbers(alloc, groups)?)),
        _ => Ok(UserSet::Listed(read_numbers(alloc, word)?)),
    }
}

/// Some of the letters `i`, `d`, `u`, in this order.
#[tactic(auto, unfolding(crate::specs::Sets::read_rights))]
pub(crate) fn read_rights(word: &[u8]) -> Option<Rights>
    ensures { result ≡ read_rights word.now }
{
    if word == b"i".as_slice() {
        return Rights::checked(true, false, false);
    }
    if word == b"d".as_slice() {
        return Rights::checked(false, true, false);
    }
    if word == b"u".as_slice() {
        return Rights::checked(false, false, true);
    }
    if word == b"id".as_slice() {
        return Rights::checked(true, true, false);
    }
    if word == b"iu".as_slice() {
        return Rights::checked(true, false, true);
    }
    if word == b"du".as_slice() {
        return Rights::checked(false, true, true);
    }
    if word == b"idu".as_slice() {
        return Rights::checked(true, true, true);
    }
    None
}

/// `+` or `-`: whether it grants.
#[tactic(auto, unfolding(crate::specs::Sets::read_sign))]
pub(crate) fn read_sign(word: &[u8]) -> Option<bool>
    ensures { result ≡ read_sign word.now }
{
    if word == b"+".as_slice() {
        return Some(true);
    }
    if word == b"-".as_slice() {
        return Some(false);
    }
    None
}
