//! The steps of a peer as bytes.
//!
//! A body is a kind and its fields. An operation is spelled by the entry that it makes, so its body speaks of the
//! version that it makes too.

mod kinds;
mod reading;
mod writing;

pub(crate) use kinds::{ADMINISTER, DELETE, INSERT, RECEIVE, SETTLE, UPDATE, VALIDATE_NEXT};
pub(crate) use reading::{alone, delete_of, insert_of, operation_of, update_of};
pub(crate) use writing::body_of;
