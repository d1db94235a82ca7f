//! Letters among bytes of UTF-8.
ghost use Rattle.std.specs.Prelude.{◌≡◌, ◌≤◌, ◌<◌, length, IfSome, IfNone};
ghost use Rattle.follow_text.specs.Letters.{is_lead, letter_count, IsLetterPlace};

/// Whether a letter begins with this byte.
pub(crate) fn is_lead(byte: u8) -> bool
    ensures { result ≡ is_lead byte }
{
    byte < 128 || byte >= 192
}

/// How many letters begin in these bytes. Takes time in their number.
pub fn letter_count(bytes: &[u8]) -> usize
    ensures count { result ≡ letter_count bytes.now }
    ensures bound { result ≤ length bytes.now }
{
    let mut count = 0;
    for byte in bytes {
        if is_lead(*byte) {
            count += 1;
        }
    }
    count
}

/// Where the letter of a number begins, from 0; the end of the bytes for the one behind the last, and none for a greater
/// number. Takes time in the bytes in front of it.
pub fn letter_place(bytes: &[u8], number: usize) -> Option<usize>
    ensures place { IfSome result (IsLetterPlace bytes.now number) }
    ensures none { IfNone result (letter_count bytes.now < number) }
{
    let mut count = 0;
    for (at, byte) in bytes.iter().enumerate() {
        if is_lead(*byte) {
            if count == number {
                return Some(at);
            }
            count += 1;
        }
    }
    if count == number {
        Some(bytes.len())
    } else {
        None
    }
}
