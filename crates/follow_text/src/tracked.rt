//! The text that a program has, which may lag behind the one that shows.
ghost use Rattle.std.specs.Prelude.{◌≡◌, ◌-◌, [], IfOk, OnOk, OnErr};
ghost use Rattle.follow_text.specs.Rows.{replaced, with_row, IsDifference};
ghost use Rattle.follow_text.specs.Tracked.{told_bytes};

use crate::span::{Carried, Span};
use crate::text_row::{TextRow, difference, replaced, with_rows};
use element_name::NoMemory;
use std::alloc::Global;

/// The text that a program has: how many rows it has seen, and which it was told and hasn't seen yet.
#[derive(Drop)]
pub struct Tracked {
    alloc: Global,
    bytes: Vec<u8>,
    seen: u64,
    unseen: Vec<TextRow>,
}

impl Tracked {
    /// A program that has this text, and has seen no row since.
    pub fn new(alloc: Global, bytes: &[u8]) -> Result<Tracked, NoMemory>
        ensures { IfOk result (λ t. told_bytes t ≡ bytes.now) }
    {
        Ok(Tracked {
            alloc,
            bytes: Vec::from_slice(alloc, bytes)?,
            seen: 0,
            unseen: Vec::new(alloc),
        })
    }

    /// The bytes that it has.
    pub fn bytes(&self) -> &[u8]
        ensures { result.now ≡ self.now.bytes.items }
    {
        &self.bytes
    }

    /// It is told a row.
    pub fn tell(&mut self, row: TextRow) -> Result<(), NoMemory>
        ensures told { OnOk result (told_bytes self.new ≡ with_row (told_bytes self.old) row) }
        ensures unchanged { OnErr result (told_bytes self.new ≡ told_bytes self.old) }
    {
        self.unseen.push(row)?;
        Ok(())
    }

    /// It has seen so many rows in all. False where it says fewer than before, or more than it was told.
    pub fn saw(&mut self, count: u64) -> Result<bool, NoMemory>
        ensures { told_bytes self.new ≡ told_bytes self.old }
    {
        let Some(more) = count.checked_sub(self.seen) else {
            return Ok(false);
        };
        if more > self.unseen.len() as u64 {
            return Ok(false);
        }
        let more = more as usize;
        let (seen, _) = self.unseen.split_at(more);
        let bytes = with_rows(self.alloc, &self.bytes, seen)?;
        let unseen = self.unseen.split_off(more)?;
        self.bytes = bytes;
        self.unseen = unseen;
        self.seen = count;
        Ok(true)
    }

    /// What becomes, in the text that shows, of a range of its own text.
    pub fn carried(&self, span: Span) -> Result<Carried, NoMemory> {
        let mut carried = Carried::new(self.alloc, span)?;
        for row in &self.unseen {
            carried = carried.over(self.alloc, row)?;
        }
        Ok(carried)
    }

    /// It has replaced a range of its own text, and isn't told the rows that it hasn't seen any more. Gives the row that
    /// makes of its text the one that shows, which it is to be told in their place.
    pub fn wrote(
        &mut self,
        span: Span,
        text: &[u8],
        shown: &[u8],
    ) -> Result<Option<TextRow>, NoMemory>
        ensures bytes { OnOk result (self.new.bytes.items ≡ replaced self.old.bytes.items span.from (span.to - span.from) text.now) }
        ensures told { OnOk result (told_bytes self.new ≡ self.new.bytes.items) }
        ensures row { IfOk result (IsDifference self.new.bytes.items shown.now) }
        ensures unchanged { OnErr result (self.new ≡ self.old) }
    {
        let bytes = replaced(
            self.alloc,
            &self.bytes,
            span.from,
            span.to - span.from,
            text,
        )?;
        let row = difference(self.alloc, &bytes, shown)?;
        self.bytes = bytes;
        self.unseen = Vec::new(self.alloc);
        Ok(row)
    }
}
