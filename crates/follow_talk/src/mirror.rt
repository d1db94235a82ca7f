//! The text that shows, and what the program beside the follower was told of it.
ghost use Rattle.std.specs.Prelude.{◌≡◌, ◌++◌, None, OnOk, OnErr, IfSome, IsSome, IsTrue};
ghost use Rattle.std.specs.List.{concat};
ghost use Rattle.peer_core.specs.Laws.{text_edited};
ghost use Rattle.follow_text.specs.Joins.{touches_row};
ghost use Rattle.follow_talk.specs.Mirrors.{IsInStep, MeetsAs, TakesIn, WasTold};
ghost use Rattle.follow_talk.specs.OutputRows.{changed_line, pending_line, whole_line};

use crate::output_row::{put_changed, put_whole};
use element_name::NoMemory;
use follow_text::{Carried, Changed, Shown, Span, TextRow, Tracked};
use peer_step::LocalEdit;
use std::alloc::Global;

/// How the rows of a step are told.
#[derive(Clone, Copy, Debug, PartialEq, Eq)]
pub(crate) enum Manner {
    /// As one with those in front of them that they touch.
    Joined,
    /// Not at all: the program knows of them.
    Known,
}

/// The text that shows, what text the program has, once it has asked for the whole, and what is said to it.
#[derive(Drop)]
pub(crate) struct Mirror {
    alloc: Global,
    pub(crate) shown: Shown,
    // The program's own text, and the rows that it was told and hasn't seen.
    pub(crate) tracked: Option<Tracked>,
    // The row of the last changes, which it isn't told yet.
    pub(crate) pending: Option<TextRow>,
    pub(crate) said: Vec<u8>,
    // How many rows were told.
    pub(crate) rows: u64,
    ghost in_step: { ∥ IsInStep tracked pending shown ∥₁ },
}

// Puts a row behind the one that waits, as one with it.
fn put_behind(alloc: Global, pending: &mut Option<TextRow>, row: TextRow) -> Result<(), NoMemory>
    requires { IfSome pending.old (λ first. IsTrue (touches_row first row)) }
    ensures joined { OnOk result (TakesIn pending.old row pending.new) }
    ensures stays { OnErr result (MeetsAs pending.old pending.new) }
{
    match pending {
        Some(first) => {
            first.join(alloc, &row)?;
            Ok(())
        }
        None => {
            *pending = Some(row);
            Ok(())
        }
    }
}

// Tells a program a row, and notes that, if its text is known.
fn tell_row(said: &mut Vec<u8>, tracked: &mut Option<Tracked>, row: TextRow) -> Result<(), NoMemory>
    ensures said { OnOk result (said.new.items ≡ said.old.items ++ changed_line row) }
    ensures told { OnOk result (WasTold tracked.old row tracked.new) }
{
    put_changed(said, &row)?;
    match tracked {
        Some(tracked) => {
            tracked.tell(row)?;
            Ok(())
        }
        None => {
            drop(row);
            Ok(())
        }
    }
}

impl Mirror {
    /// A text of which the program knows nothing.
    pub(crate) fn new(alloc: Global, shown: Shown) -> Mirror
        ensures { result.shown ≡ shown }
    {
        Mirror {
            alloc,
            shown,
            tracked: None,
            pending: None,
            said: Vec::new(alloc),
            rows: 0,
        }
    }

    /// Tells the row that waits. Where that fails it isn't known any more what text the program has.
    pub(crate) fn tell_pending(&mut self) -> Result<(), NoMemory>
        ensures said { OnOk result (self.new.said.items ≡ self.old.said.items ++ pending_line self.old.pending) }
        ensures none { self.new.pending ≡ None }
        ensures shown { self.new.shown ≡ self.old.shown }
        ensures known { OnOk result (IsSome self.old.tracked → IsSome self.new.tracked) }
    {
        let Some(row) = self.pending.take() else {
            return Ok(());
        };
        self.rows = self.rows.saturating_add(1);
        match tell_row(&mut self.said, &mut self.tracked, row) {
            Ok(()) => Ok(()),
            Err(fail) => {
                self.tracked = None;
                Err(fail)
            }
        }
    }

    // Whether a row can be told with the one that waits, or none does.
    fn touches(&self, row: &TextRow) -> bool
        ensures { IsTrue result → IfSome self.now.pending (λ first. IsTrue (touches_row first row.now)) }
    {
        match &self.pending {
            Some(first) => first.touches(row),
            None => true,
        }
    }

    // Tells the row that waits, unless the next one can be told with it.
    fn make_way(&mut self, row: &TextRow) -> Result<(), NoMemory>
        ensures way { OnOk result (IfSome self.new.pending (λ first. IsTrue (touches_row first row.now))) }
        ensures shown { self.new.shown ≡ self.old.shown }
    {
        if self.touches(row) {
            return Ok(());
        }
        self.tell_pending()
    }

    // Makes an edit in the text that shows. The row of it waits until it is told.
    fn change(&mut self, edit: &LocalEdit) -> Result<(), NoMemory>
        ensures after { OnOk result (self.new.shown ≡ text_edited self.old.shown edit.now) }
        ensures unchanged { OnErr result (self.new.shown ≡ self.old.shown) }
    {
        let Changed { shown, row } = self.shown.edited(edit)?;
        self.make_way(&row)?;
        put_behind(self.alloc, &mut self.pending, row)?;
        self.shown = shown;
        Ok(())
    }

    // Makes an edit of which the program knows. From then on it isn't known what text it has.
    fn change_known(&mut self, edit: &LocalEdit) -> Result<(), NoMemory>
        ensures after { OnOk result (self.new.shown ≡ text_edited self.old.shown edit.now) }
    {
        self.tracked = None;
        let row = self.shown.change(edit)?;
        drop(row);
        Ok(())
    }

    /// Makes an edit in the text that shows, and tells the row of it in some manner.
    pub(crate) fn show(&mut self, edit: &LocalEdit, manner: Manner) -> Result<(), NoMemory>
        ensures { OnOk result (self.new.shown ≡ text_edited self.old.shown edit.now) }
    {
        match manner {
            Manner::Joined => self.change(edit),
            Manner::Known => self.change_known(edit),
        }
    }

    /// Tells the whole text, behind the row that waits. From then on it is known what text the program has.
    pub(crate) fn tell_whole(&mut self) -> Result<(), NoMemory>
        ensures said { OnOk result (self.new.said.items ≡ (self.old.said.items ++ pending_line self.old.pending) ++ whole_line (concat self.old.shown)) }
        ensures shown { self.new.shown ≡ self.old.shown }
        ensures known { OnOk result (IsSome self.new.tracked) }
    {
        self.tell_pending()?;
        let tracked = Tracked::new(self.alloc, self.shown.bytes())?;
        put_whole(&mut self.said, self.shown.bytes())?;
        self.tracked = Some(tracked);
        Ok(())
    }

    /// Notes how many rows the program has seen. False where it has no text, or that can't be.
    pub(crate) fn saw(&mut self, count: u64) -> Result<bool, NoMemory>
        ensures { self.new.shown ≡ self.old.shown }
    {
        match &mut self.tracked {
            Some(tracked) => tracked.saw(count),
            None => Ok(false),
        }
    }

    /// The bytes of the text that the program has, as far as that is known, and otherwise of the one that shows.
    pub(crate) fn program_text(&self) -> &[u8] {
        match &self.tracked {
            Some(tracked) => tracked.bytes(),
            None => self.shown.bytes(),
        }
    }

    /// What is left of a range of that in the text that shows.
    pub(crate) fn carried(&self, span: Span) -> Result<Carried, NoMemory> {
        match &self.tracked {
            Some(tracked) => tracked.carried(span),
            None => Ok(Carried::new(self.alloc, span)?),
        }
    }

    /// Tells a program that replaced a range of its text what it lacks then, in place of the rows that it hasn't seen.
    pub(crate) fn tell_rest(
        &mut self,
        tracked: Tracked,
        span: Span,
        text: &[u8],
    ) -> Result<(), NoMemory>
        ensures shown { self.new.shown ≡ self.old.shown }
        ensures known { OnOk result (IsSome self.new.tracked) }
    {
        self.tracked = None;
        self.tell_pending()?;
        let mut tracked = tracked;
        self.pending = tracked.wrote(span, text, self.shown.bytes())?;
        self.tracked = Some(tracked);
        self.tell_pending()?;
        Ok(())
    }
}
