//! What stands where in a file of records.

/// The first byte of a file of records.
pub(crate) const FIRST_BYTE: u8 = 1;

/// The place of the first gate, in bytes: behind the first byte and two of the site.
pub const FIRST_GATE: u64 = 3;

/// An open gate: a length and a body stand behind it.
pub(crate) const OPEN: u8 = 1;

/// A closed gate, as it is written.
pub(crate) const CLOSED: u8 = 0;

/// How many bytes of a record are none of its body: the gate, and two of the length.
pub const BESIDE_BODY: u64 = 3;
