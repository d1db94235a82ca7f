//! A follower, and the program beside it.
ghost use Rattle.std.specs.Prelude.{◌≡◌, ◌⊎◌, ◌∷◌, [], ℕ, List, false, None, Some, Err, OnOk, OnErr, IfOk, IfErr, IsSome, IsTrue, length, nat_le, if◌then◌else◌};
ghost use Rattle.peer_core.specs.Peer.{text};
ghost use Rattle.peer_core.specs.Answers.{answer_of};
ghost use Rattle.peer_step.specs.declared.step.Step.{Step};
ghost use Rattle.text_change.specs.Rows.{text_told};
ghost use Rattle.follow_core.specs.declared.event.FollowEvent.{FollowEvent};
ghost use Rattle.follow_core.specs.Past.{follow_peer};
ghost use Rattle.follow_talk.specs.InputRows.{read_row};
ghost use Rattle.follow_talk.specs.Mirrors.{HasText, ShowsText};
ghost use Rattle.follow_talk.specs.Saying.{IsSavedAndTold};

use crate::input_row::{InputRow, read_row};
use crate::mirror::{Manner, Mirror};
use crate::output_row::put_answer;
use crate::stop::Stop;
use follow_core::Follower;
use follow_text::Shown;
use host_core::Keeper;
use line_spelling::LineFail;
use peer_step::{Answer, LocalEdit, Step};
use std::alloc::Global;
use std::mem;
use text_change::Told;

/// A follower, the text that it shows, and what the program beside it was told of that.
///
/// What it says is kept until all that it comes from is saved.
pub struct Talk<K: Keeper> {
    pub(crate) alloc: Global,
    pub(crate) follower: Follower<K>,
    pub(crate) mirror: Mirror,
    // How many messages of the host's journal the peer has.
    pub(crate) known: u32,
    // Whether a step was made that isn't saved.
    has_changed: bool,
    // Whether the text that shows lacks what a step changed. It does so between the two, and from then on that memory was
    // wanting there.
    is_behind: bool,
    ghost shows: { is_behind ≡ false → ∥ ShowsText mirror.shown follower.outbox ∥₁ },
}

impl<K: Keeper> Drop for Talk<K> {
    fn drop(self) {
        let Talk {
            alloc: _,
            follower,
            mirror,
            known: _,
            has_changed: _,
            is_behind: _,
        } = self;
        drop(follower);
        drop(mirror);
    }
}

// The text of an answer.
fn shown_text(alloc: Global, answer: &Answer) -> Result<Shown, Stop>
    ensures { (pieces : List (List ℕ)) → answer.now ≡ Answer.Shown pieces → IfOk result (λ shown. shown ≡ pieces) }
{
    match answer {
        Answer::Shown(text) => Ok(Shown::new(alloc, text)?),
        _ => Err(Stop::NoMemory),
    }
}

// The text that a follower's peer shows.
fn text_of<K: Keeper>(alloc: Global, follower: &mut Follower<K>) -> Result<Shown, Stop>
    ensures asked { OnOk result (follower.new.outbox ≡ FollowEvent.Made Step.Show ∷ follower.old.outbox) }
    ensures text { IfOk result (λ shown. ShowsText shown follower.old.outbox) }
{
    let told = follower.make(Step::Show)?;
    let shown = shown_text(alloc, &told.answer);
    drop(told);
    shown
}

impl<K: Keeper> Talk<K> {
    /// Begins with a keeper's peer, all of which is kept. The device's own requests below a place of its journal are known
    /// to be at the host, and so many messages of the host's journal are in it.
    ///
    /// It takes the time and the memory of the text.
    pub fn new(alloc: Global, keeper: K, back: u32, known: u32) -> Result<Self, Stop>
        requires { K.keeps keeper (K.peer keeper).journal }
        ensures { IfOk result (λ talk. talk.follower.outbox ≡ FollowEvent.Made Step.Show
            ∷ (FollowEvent.Began (K.peer keeper) (if nat_le back (length (K.peer keeper).journal) then back else 0) ∷ [])) }
    {
        let mut follower = Follower::new(alloc, keeper, back);
        let shown = text_of(alloc, &mut follower)?;
        Ok(Talk {
            alloc,
            follower,
            mirror: Mirror::new(alloc, shown),
            known,
            has_changed: false,
            is_behind: false,
        })
    }

    /// The follower.
    pub fn follower(&self) -> &Follower<K>
        ensures { result.now ≡ self.now.follower }
    {
        &self.follower
    }

    /// How many messages of the host's journal the peer has.
    pub fn known(&self) -> u32
        ensures { result ≡ self.now.known }
    {
        self.known
    }

    // That the text that shows is the peer's, unless memory was wanting before.
    pub(crate) fn check(&self) -> Result<(), Stop>
        ensures { OnOk result (∥ ShowsText self.now.mirror.shown self.now.follower.outbox ∥₁) }
    {
        if self.is_behind {
            return Err(Stop::NoMemory);
        }
        Ok(())
    }

    // Makes a step. What it changed doesn't show yet.
    pub(crate) fn make(&mut self, step: Step) -> Result<Told, Stop>
        ensures shown { OnOk result (∥ ShowsText self.old.mirror.shown self.old.follower.outbox ∥₁) }
        ensures made { OnOk result (self.new.follower.outbox ≡ FollowEvent.Made step ∷ self.old.follower.outbox) }
        ensures answer { IfOk result (λ told. told.answer ≡ answer_of (follow_peer self.old.follower.outbox) step) }
        ensures rows { IfOk result (λ told. ∥ text_told self.new.mirror.shown told.rows.items ≡ text (follow_peer self.new.follower.outbox) ∥₁) }
        ensures same { self.new.mirror ≡ self.old.mirror }
    {
        if self.is_behind {
            drop(step);
            return Err(Stop::NoMemory);
        }
        let told = self.follower.make(step)?;
        self.has_changed = true;
        self.is_behind = true;
        Ok(told)
    }

    // Shows the rows of a step, and tells them in some manner.
    pub(crate) fn show(&mut self, rows: &[LocalEdit], manner: Manner) -> Result<(), Stop>
        requires { ∥ text_told self.old.mirror.shown rows.now ≡ text (follow_peer self.old.follower.outbox) ∥₁ }
        ensures shown { OnOk result (self.new.mirror.shown ≡ text_told self.old.mirror.shown rows.now) }
        ensures outbox { self.new.follower.outbox ≡ self.old.follower.outbox }
    {
        self.is_behind = true;
        for edit in rows {
            self.mirror.show(edit, manner)?;
        }
        self.is_behind = false;
        Ok(())
    }

    // Answers a step that was made, and tells its rows.
    fn tell_answer(&mut self, told: &Told, manner: Manner) -> Result<(), Stop>
        requires { ∥ text_told self.old.mirror.shown told.now.rows.items ≡ text (follow_peer self.old.follower.outbox) ∥₁ }
    {
        put_answer(self.alloc, &mut self.mirror.said, &told.answer)?;
        self.show(&told.rows, manner)
    }

    // Makes the step of a line, and answers it. Who edits by places of pieces, and asked for the whole text, is told what
    // that changes too.
    fn answer(&mut self, step: Step) -> Result<(), Stop> {
        let is_known = matches!(step, Step::Edit(_)) && self.mirror.tracked.is_none();
        let manner = if is_known {
            Manner::Known
        } else {
            Manner::Joined
        };
        let told = self.make(step)?;
        let answered = self.tell_answer(&told, manner);
        drop(told);
        answered
    }

    // Notes how many rows the program has seen.
    fn note_seen(&mut self, count: u64) -> Result<(), Stop> {
        if self.mirror.saw(count)? {
            Ok(())
        } else {
            Err(Stop::BadLine)
        }
    }

    // Does what a line asks for, once the row that waits is told.
    fn do_told(&mut self, row: InputRow) -> Result<(), Stop> {
        match row {
            InputRow::Make(step) => self.answer(step),
            InputRow::Replace { from, to, text } => {
                let replaced = self.replace(from as usize, to as usize, &text.bytes);
                drop(text);
                replaced
            }
            InputRow::Whole => Ok(self.mirror.tell_whole()?),
            InputRow::Rules => self.tell_rules(),
            InputRow::Seen(count) => self.note_seen(count),
        }
    }

    // Does what a line asks for.
    fn do_row(&mut self, row: InputRow) -> Result<(), Stop> {
        match self.mirror.tell_pending() {
            Ok(()) => self.do_told(row),
            Err(fail) => {
                drop(row);
                Err(Stop::from(fail))
            }
        }
    }

    /// Does what a line asks for, for its bytes without the line end. A line that asks for nothing is bad, as one that says
    /// that the program has seen more than it was told, or fewer than before.
    pub fn line(&mut self, line: &[u8]) -> Result<(), Stop>
        ensures asks { OnOk result (IsSome (read_row line.now)) }
        ensures bad { read_row line.now ≡ None → IfErr result (λ stop. (stop ≡ Stop.BadLine) ⊎ (stop ≡ Stop.NoMemory)) }
        ensures unchanged { read_row line.now ≡ None → self.new ≡ self.old }
        ensures shows { OnOk result (∥ ShowsText self.new.mirror.shown self.new.follower.outbox ∥₁) }
    {
        let row = match read_row(self.alloc, line) {
            Ok(row) => row,
            Err(LineFail::Bad) => return Err(Stop::BadLine),
            Err(LineFail::NoMemory) => return Err(Stop::NoMemory),
        };
        self.do_row(row)?;
        self.check()
    }

    /// Says a line as it is: its bytes, and a line end.
    pub fn say(&mut self, line: &str) -> Result<(), Stop> {
        self.mirror.tell_pending()?;
        self.mirror.said.extend_from_slice(line.as_bytes())?;
        self.mirror.said.extend_from_slice(b"\n")?;
        Ok(())
    }

    // Whether nothing was made since the last save. Then it is noted that the program is told what it was said.
    fn tell_unchanged(&mut self) -> bool
        ensures told { IsTrue result → self.new.follower.outbox ≡ FollowEvent.Told ∷ self.old.follower.outbox }
        ensures unchanged { result ≡ false → self.new.follower.outbox ≡ self.old.follower.outbox }
        ensures mirror { self.new.mirror ≡ self.old.mirror }
    {
        !self.has_changed && self.follower.tell()
    }

    // Saves what was made, if anything was, and notes that what comes of it is told.
    fn save_all(&mut self) -> Result<(), Stop>
        ensures saved { OnOk result (IsSavedAndTold self.old.follower.outbox self.new.follower.outbox) }
        ensures mirror { self.new.mirror ≡ self.old.mirror }
    {
        if self.tell_unchanged() {
            return Ok(());
        }
        self.follower.save_and_tell()?;
        self.has_changed = false;
        Ok(())
    }

    // Gives what is said.
    fn take_said(&mut self) -> Vec<u8>
        ensures said { result.items ≡ self.old.mirror.said.items }
        ensures outbox { self.new.follower.outbox ≡ self.old.follower.outbox }
        ensures tracked { self.new.mirror.tracked ≡ self.old.mirror.tracked }
        ensures shown { self.new.mirror.shown ≡ self.old.mirror.shown }
        ensures pending { self.new.mirror.pending ≡ self.old.mirror.pending }
    {
        mem::replace(&mut self.mirror.said, Vec::new(self.alloc))
    }

    /// Saves what was made, and gives what is to be written then: nothing of that comes of what isn't saved. A program that
    /// asked for the text has the one that shows, once it has seen all rows of that.
    pub fn save(&mut self) -> Result<Vec<u8>, Stop>
        ensures saved { OnOk result (IsSavedAndTold self.old.follower.outbox self.new.follower.outbox) }
        ensures text { OnOk result (∥ HasText self.new.mirror.tracked (text (follow_peer self.new.follower.outbox)) ∥₁) }
    {
        self.check()?;
        self.mirror.tell_pending()?;
        self.save_all()?;
        Ok(self.take_said())
    }
}
