//! What a screen tells.
ghost use Rattle.screen_read.specs.Pages.{IsNewest};

use crate::page::Page;
use crate::shown::Shown;
use std::marker::Model;
use std::snapshot::Snapshot;

/// The lists that a reader was told, in order. It has none of their bytes.
#[derive(Drop)]
pub enum Tellings {
    Nothing,
    More(Snapshot<Shown>, Box<Tellings>),
}

/// The pages that a screen had published at some time, for its reader to learn. It has the last of them, and of the others
/// no bytes.
///
/// Contracts see it as the name of the screen's board, and the list of pages.
#[derive(Drop)]
pub struct Told {
    pub(crate) shown: Shown,
    // For what the reader was told before.
    pub(crate) place: Box<Tellings>,
}

impl Model for Told {
    ghost use Rattle.screen_read.specs.Ends.{BoardPages};

    ghost Value = { BoardPages };

    ghost view = { λ t. t.shown };
}

impl Told {
    /// The last of the pages.
    pub fn newest(&self) -> &Page
        ensures { IsNewest self.now.pages result.now }
    {
        self.shown.page()
    }
}
