//! The numbers by which a body says which change it is.

pub const MADE: u8 = 1;

pub const GIVEN_ROLE: u8 = 2;

pub const RENAMED: u8 = 3;

pub const INVITED: u8 = 4;

pub const UNINVITED: u8 = 5;

pub const JOINED: u8 = 6;

pub const LEFT: u8 = 7;
