//! The rules that a program is told: the entries of the administrator's log, and what of the text one undid.
ghost use Rattle.std.specs.Prelude.{◌≡◌, ◌++◌, [], OnOk, option_map, slice_get, unwrap_or};
ghost use Rattle.peer_core.specs.Peer.{front, text};
ghost use Rattle.text_change.specs.Rows.{text_told};
ghost use Rattle.follow_core.specs.Past.{follow_peer};
ghost use Rattle.follow_talk.specs.OutputRows.{entry_line, entry_lines, rules_line};

use crate::mirror::Manner;
use crate::output_row::{put_entry, put_rules, put_undone};
use crate::stop::Stop;
use crate::talk::Talk;
use host_core::Keeper;
use peer_core::Peer;
use peer_step::{Answer, Outcome};
use std::alloc::Global;
use std::mem;
use text_change::Told;

// How many edits were undone by the entry that came in so; none where no entry did.
fn undone_by(answer: &Answer) -> Option<u32> {
    match answer {
        Answer::Advanced(_, undone) => Some(undone.count),
        Answer::Settled(_, Outcome::Advanced(undone)) => Some(undone.count),
        _ => None,
    }
}

// Puts the line of the message at a place of a peer's journal, if an entry is there.
fn put_entry_at(alloc: Global, out: &mut Vec<u8>, peer: &Peer, place: u32) -> Result<(), Stop>
    ensures { OnOk result (out.new.items ≡ out.old.items ++ unwrap_or (option_map entry_line (slice_get peer.now.journal place)) []) }
{
    let Some(item) = peer.journal(place) else {
        return Ok(());
    };
    let message = item.copied()?;
    let put = put_entry(alloc, out, &message);
    drop(message);
    Ok(put?)
}

// Puts the lines of all entries of a peer's journal.
fn put_entries(alloc: Global, out: &mut Vec<u8>, peer: &Peer) -> Result<(), Stop>
    ensures { OnOk result (out.new.items ≡ out.old.items ++ entry_lines peer.now.journal) }
{
    for place in 0..peer.journal_len() {
        put_entry_at(alloc, out, peer, place)?;
    }
    Ok(())
}

impl<K: Keeper> Talk<K> {
    // Says the entry that came in last.
    fn tell_last(&mut self) -> Result<(), Stop>
        ensures shown { self.new.mirror.shown ≡ self.old.mirror.shown }
        ensures outbox { self.new.follower.outbox ≡ self.old.follower.outbox }
    {
        self.mirror.tell_pending()?;
        let last = self.follower.peer().journal_len().saturating_sub(1);
        put_entry_at(
            self.alloc,
            &mut self.mirror.said,
            self.follower.peer(),
            last,
        )
    }

    // Shows what an entry changed, and tells it: behind the entry how many edits it undid, and in how many rows, and these.
    fn show_entry(&mut self, told: &Told, count: u32) -> Result<(), Stop>
        requires { ∥ text_told self.old.mirror.shown told.now.rows.items ≡ text (follow_peer self.old.follower.outbox) ∥₁ }
    {
        self.tell_last()?;
        let said = mem::replace(&mut self.mirror.said, Vec::new(self.alloc));
        let before = self.mirror.rows;
        self.show(&told.rows, Manner::Joined)?;
        self.mirror.tell_pending()?;
        let rows = mem::replace(&mut self.mirror.said, said);
        if count > 0 {
            let number = self.mirror.rows.saturating_sub(before);
            put_undone(&mut self.mirror.said, count, number)?;
        }
        self.mirror.said.extend_from_slice(&rows)?;
        Ok(())
    }

    /// Shows what a step changed, and tells it: behind the entry that came in, if one did.
    pub(crate) fn show_told(&mut self, told: &Told) -> Result<(), Stop>
        requires { ∥ text_told self.old.mirror.shown told.now.rows.items ≡ text (follow_peer self.old.follower.outbox) ∥₁ }
    {
        match undone_by(&told.answer) {
            Some(count) => self.show_entry(told, count),
            None => self.show(&told.rows, Manner::Joined),
        }
    }

    /// Says all entries that the peer has, in their order, and then which version of the rules they make. It takes the time
    /// of the journal.
    pub(crate) fn tell_rules(&mut self) -> Result<(), Stop>
        ensures { OnOk result (self.new.mirror.said.items ≡ (self.old.mirror.said.items ++ entry_lines (follow_peer self.old.follower.outbox).journal)
            ++ rules_line (front (follow_peer self.old.follower.outbox))) }
    {
        put_entries(self.alloc, &mut self.mirror.said, self.follower.peer())?;
        put_rules(&mut self.mirror.said, self.follower.peer().front())?;
        Ok(())
    }
}
