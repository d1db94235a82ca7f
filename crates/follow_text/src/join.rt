//! Rows of a text, one behind another, that are told as one.
ghost use Rattle.std.specs.Prelude.{◌≡◌, ◌+◌, ◌^◌, ◌<◌, ◌≤◌, length, OnOk, OnErr, IsTrue};
ghost use Rattle.follow_text.specs.Joins.{touches_row, IsJoin, MakesAs};

use crate::text_row::{TextRow, replaced};
use element_name::NoMemory;
use std::alloc::Global;

impl TextRow {
    /// Whether the next row can be told with this one: it begins where what this one put in ends, stands within that, or ends
    /// where that begins. Takes constant time.
    pub fn touches(&self, next: &TextRow) -> bool
        ensures { result ≡ touches_row self.now next.now }
    {
        if self.out.checked_add(next.out).is_none() {
            return false;
        }
        let len = self.put.len();
        match next.at.checked_sub(self.at) {
            Some(place) => place == len || (place < len && next.out <= len - place),
            None => self.at - next.at == next.out,
        }
    }

    /// Makes one row of this one and the next. Takes time in what the next one puts in, and where that doesn't stand at the end
    /// in what this one did too.
    pub fn join(&mut self, alloc: Global, next: &TextRow) -> Result<(), NoMemory>
        requires { IsTrue (touches_row self.old next.now) }
        ensures joined { OnOk result (IsJoin self.old next.now self.new) }
        ensures stays { OnErr result (MakesAs self.old self.new) }
    {
        if next.at < self.at {
            return self.join_front(alloc, next);
        }
        if next.at - self.at == self.put.len() {
            return self.join_behind(next);
        }
        self.join_within(alloc, next)
    }

    // Takes in a row that ends where this one begins.
    fn join_front(&mut self, alloc: Global, next: &TextRow) -> Result<(), NoMemory>
        requires end { next.now.at + next.now.out ≡ self.old.at }
        requires room { self.old.out + next.now.out < 2 ^ 64 }
        ensures joined { OnOk result (IsJoin self.old next.now self.new) }
        ensures stays { OnErr result (MakesAs self.old self.new) }
    {
        let mut put = Vec::from_slice(alloc, &next.put)?;
        put.extend_from_slice(&self.put)?;
        self.put = put;
        self.at = next.at;
        self.out += next.out;
        self.letters_before = next.letters_before;
        self.letters_out = self.letters_out.saturating_add(next.letters_out);
        Ok(())
    }

    // Takes in a row that begins where what this one put in ends.
    fn join_behind(&mut self, next: &TextRow) -> Result<(), NoMemory>
        requires at { next.now.at ≡ self.old.at + length self.old.put.items }
        requires room { self.old.out + next.now.out < 2 ^ 64 }
        ensures joined { OnOk result (IsJoin self.old next.now self.new) }
        ensures stays { OnErr result (MakesAs self.old self.new) }
    {
        self.put.extend_from_slice(&next.put)?;
        self.out += next.out;
        self.letters_out = self.letters_out.saturating_add(next.letters_out);
        Ok(())
    }

    // Takes in a row that stands within what this one put in.
    fn join_within(&mut self, alloc: Global, next: &TextRow) -> Result<(), NoMemory>
        requires behind { self.old.at ≤ next.now.at }
        requires within { next.now.at + next.now.out ≤ self.old.at + length self.old.put.items }
        ensures joined { OnOk result (IsJoin self.old next.now self.new) }
        ensures stays { OnErr result (MakesAs self.old self.new) }
    {
        let place = next.at - self.at;
        let put = replaced(alloc, &self.put, place, next.out, &next.put)?;
        self.put = put;
        Ok(())
    }
}
