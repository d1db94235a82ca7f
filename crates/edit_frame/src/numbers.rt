//! The numbers by which a frame says what it has.

/// The frame version of all frames but those of a long piece.
pub const PLAIN_VERSION: u8 = 1;

/// The frame version of an insert or an update with a piece of more than one scalar value.
pub const LONG_VERSION: u8 = 2;

pub const INSERT_KIND: u8 = 1;

pub const DELETE_KIND: u8 = 2;

pub const UPDATE_KIND: u8 = 3;

pub const ENTRY_KIND: u8 = 4;

pub const TURN_KIND: u8 = 5;

pub const END_KIND: u8 = 6;

pub const ADD_USER: u8 = 1;

pub const DEL_USER: u8 = 2;

pub const ADD_OBJECT: u8 = 3;

pub const DEL_OBJECT: u8 = 4;

pub const ADD_AUTH: u8 = 5;

pub const DEL_AUTH: u8 = 6;

pub const VALIDATE: u8 = 7;

pub const ADD_GROUP: u8 = 8;

pub const DEL_GROUP: u8 = 9;

pub const ADD_MEMBER: u8 = 10;

pub const DEL_MEMBER: u8 = 11;

pub const EVERYTHING: u8 = 0;

pub const SPAN: u8 = 1;

pub const ELEMENTS: u8 = 2;

pub const ELEMENTS_BY: u8 = 3;

/// The sign of an authorization that allows.
pub const ALLOWING: u8 = 1;

/// The count of users that stands for all of them.
pub const EVERYONE: u8 = 0;

/// Up to this a count of users is one of listed users, and above it one of groups, with this taken off.
pub const GROUPS_ABOVE: u8 = 16;

/// What each right is worth in a sum of rights.
pub const INSERT_WORTH: u8 = 1;

pub const DELETE_WORTH: u8 = 2;

pub const UPDATE_WORTH: u8 = 4;

/// The sum of all rights.
pub const ALL_RIGHTS: u8 = 7;
