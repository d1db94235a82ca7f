//! The reader of a screen.
ghost use Rattle.std.specs.Prelude.{◌≡◌, IfOk};
ghost use mathlib.Core.List.{IsPrefix};
ghost use Rattle.left_right.specs.Sides.{view};
ghost use Rattle.screen_read.specs.Ends.{told_also, ReadsPage};
ghost use Rattle.screen_read.specs.Rule.{IsSeenOf};

use crate::page::Page;
use crate::rule::{OneBoard, Sees};
use crate::shown::Shown;
use crate::told::{Tellings, Told};
use core::mem::replace_with;
use element_name::NoMemory;
use left_right::reader::Reader;
use std::collections::LinkedList;
use std::marker::Model;
use std::mem::replace;
use std::snapshot::Snapshot;

/// One that takes what is shown.
pub(crate) type Taker = Reader<Shown, LinkedList<Shown>, OneBoard>;

/// Reads what a screen publishes, and never waits. It may go to another thread.
///
/// Contracts see the name of the screen's board, the pages that were seen, of which the last one was given, and the lists
/// of pages that the reader was told since.
#[derive(Drop)]
pub struct ScreenReader {
    pub(crate) taker: Taker,
    // The longest of what was seen and told.
    pub(crate) known: Shown,
    pub(crate) seen: Snapshot<Shown>,
    pub(crate) told: Tellings,
}

impl Model for ScreenReader {
    ghost use mathlib.Core.List.{IsPrefix};
    ghost use Rattle.screen_read.specs.Pages.{AllBegin};
    ghost use Rattle.screen_read.specs.Ends.{ReaderPages, reader_pages};
    ghost use Rattle.screen_read.specs.Tellings.{told_lists};
    ghost use Rattle.screen_read.specs.Rule.{IsSeenOf};

    ghost Value = { ReaderPages };

    ghost view = { λ r. reader_pages r.known.table r.seen.value.pages (told_lists r.told) };

    ghost invariant = { λ r. IsSeenOf r.known.table r.taker.place.me.0.client × IsPrefix r.seen.value.pages r.known.pages × AllBegin (told_lists r.told) r.known.pages };
}

// The longer of two lists of pages.
fn longer(shown: &Shown, known: &Shown) -> Result<Shown, NoMemory>
    requires { shown.now.table ≡ known.now.table }
    ensures table { IfOk result (λ s. s.table ≡ known.now.table) }
    ensures pages { IfOk result (λ s. IsPrefix known.now.pages s.pages) }
{
    if known.begins(shown) {
        shown.again()
    } else {
        known.again()
    }
}

// Takes what is shown, if it is longer than what is known. Where the screen is gone, what is known is the newest.
fn look(taker: Taker, known: &Shown) -> (Taker, Result<Shown, NoMemory>)
    requires { IsSeenOf known.now.table (view taker.place) }
    ensures taker { IsSeenOf known.now.table (view result.0.place) }
    ensures table { IfOk result.1 (λ s. s.table ≡ known.now.table) }
    ensures pages { IfOk result.1 (λ s. IsPrefix known.now.pages s.pages) }
{
    match taker.enter_as::<Sees>() {
        Ok(reading) => {
            let newest = longer(reading.get(), known);
            (reading.leave(), newest)
        }
        Err(taker) => (taker, known.again()),
    }
}

// The longer of two lists of pages.
fn later(known: Shown, shown: Shown) -> (Shown, ())
    requires { shown.table ≡ known.table }
    ensures table { result.0.table ≡ known.table }
    ensures known { IsPrefix known.pages result.0.pages }
    ensures shown { IsPrefix shown.pages result.0.pages }
{
    if known.begins(&shown) {
        (shown, ())
    } else {
        (known, ())
    }
}

impl ScreenReader {
    /// The page that was published last, as far as this reader sees: not older than what it saw or was told. At most five
    /// atomic steps, and no lock; the page shares its text with the screen, so the text's length costs nothing.
    ///
    /// Fails where the text has as many pages as can be counted.
    pub fn read(&mut self) -> Result<Page, NoMemory>
        ensures { ReadsPage self.old result self.new }
    {
        let newest = replace_with(&mut self.taker, &self.known, look)?;
        let page = newest.page().again()?;
        self.seen = Snapshot::of(&newest);
        self.known = newest;
        self.told = Tellings::Nothing;
        Ok(page)
    }

    /// Takes in what the screen that was made together with this reader told. The next read isn't older.
    pub fn learn(&mut self, told: Told)
        requires { told.table ≡ self.old.table }
        ensures { self.new ≡ told_also self.old told.pages }
    {
        let Told { shown, mut place } = told;
        let list = Snapshot::of(&shown);
        replace_with(&mut self.known, shown, later);
        *place = replace(&mut self.told, Tellings::Nothing);
        self.told = Tellings::More(list, place);
    }
}
