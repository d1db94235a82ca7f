//! Limits of a host.

/// The greatest number of persons, so that each has a group of the policy.
pub const MAX_PEOPLE: u32 = 65_536;

/// The greatest number of devices, so that each has a site beside the host's own.
pub const MAX_SITES: u32 = 65_535;

/// The greatest number of links that a host opens until it is started anew.
pub const MAX_OPENED: u64 = 4_611_686_018_427_387_904;

/// How many requests a document may have before the host takes no more from links. What is left up to the greatest
/// number of requests is for its owners' orders.
pub const LINK_REQUESTS: u32 = 126_976;

/// How many requests of a site may be denied as they come, until the host is started anew.
pub const MAX_DENIED: u32 = 1_000;
