//! The limits of what words say.

/// The greatest number of a site.
pub(crate) const MAX_SITE: u64 = u16::MAX as u64;

/// The greatest seed.
pub(crate) const MAX_SEED: u64 = u32::MAX as u64;

/// The greatest number of a port.
pub(crate) const MAX_PORT: u64 = u16::MAX as u64;

/// The most links that are served beside each other.
pub(crate) const MAX_LINKS: u64 = 16;

/// The most rounds that are dialled.
pub(crate) const MAX_ROUNDS: u64 = 1000;

/// The most reads of a watch.
pub(crate) const MAX_READS: u64 = 100;

/// The greatest length of a file's name, in bytes.
pub(crate) const MAX_FILE_NAME: usize = 255;
