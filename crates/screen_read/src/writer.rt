//! The writer's end of a board.
ghost use Rattle.std.specs.Prelude.{◌≡◌, ◌++◌, ◌∷◌, [], IfOk, OnOk, OnErr, IsTrue, MatchBool};
ghost use Rattle.screen_read.specs.Pages.{IsAscending};
ghost use Rattle.screen_read.specs.Ends.{board_pages, reader_pages};
ghost use Rattle.screen_read.specs.Rule.{IsSeenOf};
ghost use Rattle.left_right.specs.Sides.{view};

use crate::page::Page;
use crate::reader::{ScreenReader, Taker};
use crate::roll::Head;
use crate::rule::{Begin, OneBoard, Sees, Tell};
use crate::shown::Shown;
use crate::told::{Tellings, Told};
use core::mem::replace_with;
use element_name::NoMemory;
use left_right::writer::Writer;
use std::alloc::Global;
use std::collections::LinkedList;
use std::marker::Model;
use std::snapshot::Snapshot;
use std::sync::Wait;

/// One that shows pages.
pub(crate) type Shower = Writer<Shown, Shown, LinkedList<Shown>, OneBoard>;

/// Publishes pages. It keeps the handle, since its drop waits for a read that takes a page.
pub(crate) struct PageWriter<'a, R: Wait> {
    shower: Shower,
    head: Head,
    newest: Shown,
    alloc: Global,
    rt: &'a R,
}

impl<'a, R: Wait> Model for PageWriter<'a, R> {
    ghost use Rattle.std.specs.Prelude.{◌≡◌};
    ghost use Rattle.screen_read.specs.Ends.{BoardPages};
    ghost use Rattle.screen_read.specs.Roll.{book_head};

    ghost Value = { BoardPages };

    ghost view = { λ w. w.newest };

    ghost invariant = { λ w. (w.shower.desk.shown.value ≡ w.newest) × (w.head ≡ book_head w.newest.table) };
}

impl<R: Wait> Drop for PageWriter<'_, R> {
    fn drop(self) {
        let PageWriter {
            shower,
            head: _head,
            newest: _newest,
            alloc: _,
            rt,
        } = self;
        shower.take(rt);
    }
}

// Shows this next, and says whether it did.
fn show_next<R: Wait>(shower: Shower, next: (&R, Shown)) -> (Shower, bool)
    requires { next.1.table ≡ shower.desk.shown.value.table }
    ensures shown { MatchBool result.1 (result.0.desk.shown.value ≡ next.entry.1) (result.0.desk.shown.value ≡ shower.desk.shown.value) }
    ensures view { IsTrue result.1 → view result.0.desk.place ≡ next.entry.1 ∷ [] }
{
    let mut shower = shower;
    let (rt, next) = next;
    let Ok(()) = shower.append(next) else {
        return (shower, false);
    };
    let (shower, shows) = shower.publish_as::<Sees, R>(rt);
    (shower, shows.is_ok())
}

// Shows the first page once more, so that the shower knows it, and makes the one that takes it.
fn begin<R: Wait>(rt: &R, shower: Shower, again: Shown) -> (Shower, Result<Taker, NoMemory>)
    requires { again ≡ shower.desk.shown.value }
    ensures shown { result.0.desk.shown.value ≡ again }
    ensures taker { IfOk result.1 (λ t. IsSeenOf again.table (view t.place)) }
{
    let (mut shower, shows) = show_next(shower, (rt, again));
    if !shows {
        return (shower, Err(NoMemory));
    }
    let Ok(mut taker) = shower.factory().reader() else {
        return (shower, Err(NoMemory));
    };
    taker.learn::<Begin>(shower.tell::<Tell>());
    (shower, Ok(taker))
}

/// The two ends of a new board, which begins with this page.
pub(crate) fn open<'a, R: Wait>(
    rt: &'a R,
    alloc: Global,
    page: Page,
) -> Result<(PageWriter<'a, R>, ScreenReader), NoMemory>
    ensures writer { IfOk result (λ r. r.0.pages ≡ page ∷ []) }
    ensures reader { IfOk result (λ r. r.1 ≡ reader_pages r.0.table (page ∷ []) []) }
{
    let (head, newest) = Shown::first(page)?;
    let (one, two) = (newest.again()?, newest.again()?);
    let (three, known) = (newest.again()?, newest.again()?);
    let shower: Shower = Writer::new(alloc, one, two, 1)?;
    let (shower, taker) = begin(rt, shower, three);
    let taker = match taker {
        Ok(taker) => taker,
        Err(fail) => {
            shower.take(rt);
            return Err(fail);
        }
    };
    let reader = ScreenReader {
        taker,
        seen: Snapshot::of(&known),
        known,
        told: Tellings::Nothing,
    };
    let writer = PageWriter {
        shower,
        head,
        newest,
        alloc,
        rt,
    };
    Ok((writer, reader))
}

impl<R: Wait> PageWriter<'_, R> {
    /// Publishes a page, whose steps are more than those of the last one. It waits for a read that takes the page before
    /// the last. Fails where the text has as many pages as can be counted, and publishes nothing then or later.
    pub(crate) fn publish(&mut self, page: Page) -> Result<(), NoMemory>
        requires { IsAscending (self.old.pages ++ page ∷ []) }
        ensures ok { OnOk result (self.new ≡ board_pages self.old.table (self.old.pages ++ page ∷ [])) }
        ensures err { OnErr result (self.new ≡ self.old) }
    {
        let next = self.newest.followed(&self.head, page)?;
        let operation = next.again()?;
        if !replace_with(&mut self.shower, (self.rt, operation), show_next) {
            return Err(NoMemory);
        }
        self.newest = next;
        Ok(())
    }

    /// What was published so far.
    pub(crate) fn tell(&mut self) -> Result<Told, NoMemory>
        ensures told { IfOk result (λ t. t ≡ self.old) }
        ensures same { self.new ≡ self.old }
    {
        Ok(Told {
            shown: self.newest.again()?,
            place: Box::new(self.alloc, Tellings::Nothing)?,
        })
    }
}
