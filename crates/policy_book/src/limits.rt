//! Limits of policies and of what stands in them.

/// The greatest number of users, of objects, of groups, of members of a group and of authorizations.
pub const MAX_OF_KIND: usize = 256;

/// The greatest number of users, of groups and of objects that an authorization lists.
pub const MAX_NUMBERS: usize = 16;

/// The greatest number of names that an extent lists.
pub const MAX_NAMES: usize = 32;
