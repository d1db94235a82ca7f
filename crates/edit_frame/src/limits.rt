//! Lengths and ranges of the format.

/// How many bytes the length field has.
pub const LENGTH_BYTES: usize = 4;

/// The least length field, of a frame that has a version and a kind and no fields.
pub const MIN_LENGTH: u32 = 2;

/// The greatest length field, of an insert or an update with a piece of 255 bytes.
pub const MAX_LENGTH: u32 = 276;

/// How many sites there are: a name's number is its stamp, so many times, and its site.
pub const SITES: u64 = 65_536;
