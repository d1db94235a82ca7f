//! What comes of orders.

use std::alloc::{AllocError, Global};

/// What an order changed besides the texts.
#[derive(Clone, Copy, Debug, PartialEq, Eq)]
pub enum Consequence {
    /// Nothing.
    Nothing,
    /// People.
    People,
    /// The device of this site was closed.
    Closed(u16),
    /// A person's role changed, so his links are to be made anew.
    Role(u16),
    /// The list of documents.
    Documents,
    /// The document of this number has another name, or was put away: its links end.
    Moved(usize),
    /// The document of this number gave way to its renewal: its links end.
    Renewed(usize),
}

/// What came of an order: the text that answers it, and what it changed.
#[derive(Drop)]
pub struct Done {
    pub text: String,
    pub consequence: Consequence,
}

impl Done {
    /// The order of this number was refused, for the reason that the words say.
    pub(crate) fn refused(alloc: Global, number: u32, words: &str) -> Result<Done, AllocError> {
        let text = format!(in alloc; "refused {number} {words}")?;
        Ok(Done {
            text,
            consequence: Consequence::Nothing,
        })
    }

    /// The order of this number was done, and is answered by these lines.
    pub(crate) fn answered(
        alloc: Global,
        number: u32,
        lines: &str,
        consequence: Consequence,
    ) -> Result<Done, AllocError> {
        let text = format!(in alloc; "answer {number}\n{lines}")?;
        Ok(Done { text, consequence })
    }
}
