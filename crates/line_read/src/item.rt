//! The items of lists, which are numbers or names.
ghost use Rattle.std.specs.Prelude.{◌≡◌, map};
ghost use Rattle.line_read.specs.Words.{bytes_of, each_some};
ghost use Rattle.line_read.specs.ReadsAs.{ReadsItems};

use crate::numbers::{read_name, read_short};
use element_name::Name;
use line_spelling::LineFail;
use std::alloc::Global;

pub(crate) trait Item: Copy {
    ghost use Rattle.std.specs.Prelude.{ℕ, List, Option};

    /// What a word spells.
    ghost spelled: { List ℕ → Option Self };

    fn read(word: &[u8]) -> Option<Self>
        ensures { result ≡ spelled word.now };
}

impl Item for u16 {
    ghost use Rattle.line_read.specs.Numbers.{read_short};

    ghost spelled = { read_short };

    fn read(word: &[u8]) -> Option<u16> {
        read_short(word)
    }
}

impl Item for Name {
    ghost use Rattle.line_read.specs.Numbers.{read_name};

    ghost spelled = { read_name };

    fn read(word: &[u8]) -> Option<Name> {
        read_name(word)
    }
}

/// The item that each of the words spells.
pub(crate) fn read_each<T: Item>(alloc: Global, words: &[&[u8]]) -> Result<Vec<T>, LineFail>
    ensures { ReadsItems result (each_some (map T.spelled (bytes_of words.now))) }
{
    let mut items = Vec::with_capacity(alloc, words.len())?;
    for word in words {
        let item = T::read(word).ok_or(LineFail::Bad)?;
        items.push(item)?;
    }
    Ok(items)
}
