//! What requests are judged by.

use admin_log::{AdminLog, VersionTable};

/// What requests are judged by: the log, the table of where another authorization may match first, and the places of the
/// elements.
#[derive(Drop)]
pub(crate) struct Judging<'a, P> {
    pub(crate) log: &'a AdminLog,
    pub(crate) table: &'a VersionTable,
    pub(crate) places: &'a P,
}
