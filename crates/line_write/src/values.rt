//! Names, pieces, texts, lists and sets.
ghost use Rattle.std.specs.Prelude.{◌≡◌, ◌+◌, ◌<◌, ◌++◌, ◌∷◌, [], OnOk, IfSome, IfNone, decimal, length, map, take, drop, if◌then◌else◌};
ghost use Rattle.line_spelling.specs.Values.{behind_spaces, behind_commas, name_text, text_byte, piece_byte, text_text, piece_text};
ghost use Rattle.line_spelling.specs.Values.{numbers_text, names_text, users_text, rights_text};

use element_name::{Name, NoMemory};
use itoa::Buffer;
use line_spelling::{BACKSLASH, LINE_END, LINE_END_LETTER, POINT, SPACE, SPACE_LETTER};
use memchr::memchr2;
use policy_book::{Rights, UserSet};

/// Appends bytes. Takes time in their number. Fails where memory is wanting.
pub fn put(line: &mut Vec<u8>, bytes: &[u8]) -> Result<(), NoMemory>
    ensures { OnOk result (line.new.items ≡ line.old.items ++ bytes.now) }
{
    line.extend_from_slice(bytes)?;
    Ok(())
}

/// Appends a number in digits.
pub(crate) fn put_number(line: &mut Vec<u8>, number: u64) -> Result<(), NoMemory>
    ensures { OnOk result (line.new.items ≡ line.old.items ++ decimal number) }
{
    if number < 10 {
        line.push(b'0' + number as u8)?;
        return Ok(());
    }
    let mut buffer = Buffer::new();
    let digits = buffer.format(number);
    put(line, digits.as_bytes())
}

/// Appends a space and a number. Takes time in its digits. Fails where memory is wanting; a part may then stand in
/// the line.
pub fn put_number_word(line: &mut Vec<u8>, number: u64) -> Result<(), NoMemory>
    ensures { OnOk result (line.new.items ≡ line.old.items ++ behind_spaces (decimal number ∷ [])) }
{
    line.push(SPACE)?;
    put_number(line, number)
}

/// Appends a word and a number, each behind a space.
pub(crate) fn put_numbered(line: &mut Vec<u8>, word: &[u8], number: u32) -> Result<(), NoMemory>
    ensures { OnOk result (line.new.items ≡ line.old.items ++ behind_spaces (word.now ∷ decimal number ∷ [])) }
{
    put(line, b" ")?;
    put(line, word)?;
    put_number_word(line, u64::from(number))
}

/// Appends a name.
pub(crate) fn put_name(line: &mut Vec<u8>, name: Name) -> Result<(), NoMemory>
    ensures { OnOk result (line.new.items ≡ line.old.items ++ name_text name) }
{
    put_number(line, name.stamp())?;
    line.push(POINT)?;
    put_number(line, u64::from(name.site()))
}

/// Appends a space and a name. Takes time in its digits. Fails where memory is wanting; a part may then stand in the
/// line.
pub fn put_name_word(line: &mut Vec<u8>, name: Name) -> Result<(), NoMemory>
    ensures { OnOk result (line.new.items ≡ line.old.items ++ behind_spaces (name_text name ∷ [])) }
{
    line.push(SPACE)?;
    put_name(line, name)
}

// Appends a byte of a text.
fn put_text_byte(line: &mut Vec<u8>, b: u8) -> Result<(), NoMemory>
    ensures { OnOk result (line.new.items ≡ line.old.items ++ text_byte b) }
{
    if b == LINE_END {
        return put(line, &[BACKSLASH, LINE_END_LETTER]);
    }
    if b == BACKSLASH {
        return put(line, &[BACKSLASH, BACKSLASH]);
    }
    line.push(b)?;
    Ok(())
}

// The place of the first byte of a text that isn't written as itself.
fn escaped_in(text: &[u8]) -> Option<usize>
    ensures within { IfSome result (λ i. i < length text.now) }
    ensures plain { IfSome result (λ i. text_text (take i text.now) ≡ take i text.now) }
    ensures none { IfNone result (text_text text.now ≡ text.now) }
{
    memchr2(LINE_END, BACKSLASH, text)
}

// Appends a text as far as the byte at a place, in front of which each is written as itself.
fn put_text_until(line: &mut Vec<u8>, text: &[u8], at: usize) -> Result<(), NoMemory>
    requires within { at < length text.now }
    requires plain { text_text (take at text.now) ≡ take at text.now }
    ensures { OnOk result (line.new.items ≡ line.old.items ++ text_text (take (at + 1) text.now)) }
{
    put(line, &text[..at])?;
    put_text_byte(line, text[at])
}

// What stands behind the byte at a place.
fn behind(text: &[u8], at: usize) -> &[u8]
    requires { at < length text.now }
    ensures { result.now ≡ drop (at + 1) text.now }
{
    &text[at + 1..]
}

/// Appends a text.
pub(crate) fn put_text(line: &mut Vec<u8>, text: &[u8]) -> Result<(), NoMemory>
    ensures { OnOk result (line.new.items ≡ line.old.items ++ text_text text.now) }
{
    let mut rest = text;
    while let Some(i) = escaped_in(rest) {
        put_text_until(line, rest, i)?;
        rest = behind(rest, i);
    }
    put(line, rest)
}

// Appends a byte of a piece.
fn put_piece_byte(line: &mut Vec<u8>, b: u8) -> Result<(), NoMemory>
    ensures { OnOk result (line.new.items ≡ line.old.items ++ piece_byte b) }
{
    if b == SPACE {
        return put(line, &[BACKSLASH, SPACE_LETTER]);
    }
    put_text_byte(line, b)
}

// Appends the bytes of a piece.
fn put_piece(line: &mut Vec<u8>, piece: &[u8]) -> Result<(), NoMemory>
    ensures { OnOk result (line.new.items ≡ line.old.items ++ piece_text piece.now) }
{
    for b in piece {
        put_piece_byte(line, *b)?;
    }
    Ok(())
}

/// Appends a space and the bytes of a piece.
pub(crate) fn put_piece_word(line: &mut Vec<u8>, piece: &[u8]) -> Result<(), NoMemory>
    ensures { OnOk result (line.new.items ≡ line.old.items ++ behind_spaces (piece_text piece.now ∷ [])) }
{
    line.push(SPACE)?;
    put_piece(line, piece)
}

// Appends numbers, each behind a comma.
fn put_more_numbers(line: &mut Vec<u8>, numbers: &[u16]) -> Result<(), NoMemory>
    ensures { OnOk result (line.new.items ≡ line.old.items ++ behind_commas (map decimal numbers.now)) }
{
    for number in numbers {
        put(line, b",")?;
        put_number(line, u64::from(*number))?;
    }
    Ok(())
}

// Appends names, each behind a comma.
fn put_more_names(line: &mut Vec<u8>, names: &[Name]) -> Result<(), NoMemory>
    ensures { OnOk result (line.new.items ≡ line.old.items ++ behind_commas (map name_text names.now)) }
{
    for name in names {
        put(line, b",")?;
        put_name(line, *name)?;
    }
    Ok(())
}

/// Appends a list of numbers.
pub(crate) fn put_numbers(line: &mut Vec<u8>, numbers: &[u16]) -> Result<(), NoMemory>
    ensures { OnOk result (line.new.items ≡ line.old.items ++ numbers_text numbers.now) }
{
    let [first, others @ ..] = numbers else {
        return Ok(());
    };
    put_number(line, u64::from(*first))?;
    put_more_numbers(line, others)
}

/// Appends a list of names.
pub(crate) fn put_names(line: &mut Vec<u8>, names: &[Name]) -> Result<(), NoMemory>
    ensures { OnOk result (line.new.items ≡ line.old.items ++ names_text names.now) }
{
    let [first, others @ ..] = names else {
        return Ok(());
    };
    put_name(line, *first)?;
    put_more_names(line, others)
}

/// Appends a set of users.
pub(crate) fn put_users(line: &mut Vec<u8>, users: &UserSet) -> Result<(), NoMemory>
    ensures { OnOk result (line.new.items ≡ line.old.items ++ users_text users.now) }
{
    match users {
        UserSet::All => put(line, b"all"),
        UserSet::Listed(numbers) => put_numbers(line, numbers.as_slice()),
        UserSet::Groups(numbers) => {
            put(line, b"@")?;
            put_numbers(line, numbers.as_slice())
        }
    }
}

// Appends bytes where a test passes.
fn put_if(line: &mut Vec<u8>, test: bool, bytes: &[u8]) -> Result<(), NoMemory>
    ensures { OnOk result (line.new.items ≡ line.old.items ++ (if test then bytes.now else [])) }
{
    if test {
        return put(line, bytes);
    }
    Ok(())
}

/// Appends the letters of rights.
pub(crate) fn put_rights(line: &mut Vec<u8>, rights: Rights) -> Result<(), NoMemory>
    ensures { OnOk result (line.new.items ≡ line.old.items ++ rights_text rights) }
{
    put_if(line, rights.insert(), b"i")?;
    put_if(line, rights.delete(), b"d")?;
    put_if(line, rights.update(), b"u")
}
