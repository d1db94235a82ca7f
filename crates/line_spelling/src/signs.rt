//! The bytes that mean something of their own in a line.

/// Ends a line: LF.
pub const LINE_END: u8 = b'\n';

/// Stands between two words of a line.
pub const SPACE: u8 = b' ';

/// Stands between two items of a list.
pub const COMMA: u8 = b',';

/// Stands between the stamp of a name and its site.
pub const POINT: u8 = b'.';

/// Stands in front of the numbers of groups.
pub const GROUP_SIGN: u8 = b'@';

/// Stands in front of a letter, and the two for another byte: a second backslash for one backslash.
pub const BACKSLASH: u8 = b'\\';

/// Behind a backslash, it stands for a line end.
pub const LINE_END_LETTER: u8 = b'n';

/// Behind a backslash, it stands for a space.
pub const SPACE_LETTER: u8 = b's';
