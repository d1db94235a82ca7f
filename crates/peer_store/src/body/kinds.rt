//! The numbers by which a body says which step it is.

pub const INSERT: u8 = 1;

pub const DELETE: u8 = 2;

pub const UPDATE: u8 = 3;

pub const ADMINISTER: u8 = 4;

pub const RECEIVE: u8 = 5;

pub const SETTLE: u8 = 6;

pub const VALIDATE_NEXT: u8 = 7;
