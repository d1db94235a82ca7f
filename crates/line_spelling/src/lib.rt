//! How steps, messages and answers are spelled: the bytes that mean something of their own in a line, and the
//! definitions of what is written.
//!
//! It knows words, signs and limits of a line, as definitions.
//! It must not know where a line comes from or goes to.
#![tactic(auto)]

pub mod laws;
mod line;
mod signs;

pub use line::{LineFail, MAX_LINE};
pub use signs::{
    BACKSLASH, COMMA, GROUP_SIGN, LINE_END, LINE_END_LETTER, POINT, SPACE, SPACE_LETTER,
};
