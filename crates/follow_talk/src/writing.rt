//! Ranges of letters that are replaced.
ghost use Rattle.std.specs.Prelude.{◌≡◌, ◌+◌, ◌-◌, ◌^◌, ◌<◌, ◌≤◌, true, OnOk, IfOk, IfSome, length, drop};
ghost use Rattle.std.specs.List.{concat};
ghost use Rattle.peer_core.specs.Peer.{text};
ghost use Rattle.peer_core.specs.Laws.{text_edited};
ghost use Rattle.text_change.specs.Rows.{text_told};
ghost use Rattle.text_change.specs.Told.{is_done};
ghost use Rattle.follow_core.specs.Past.{follow_peer};
ghost use Rattle.follow_text.specs.Edits.{deletions, inserts};
ghost use Rattle.follow_text.specs.Letters.{IsLetterPlace};
ghost use Rattle.follow_text.specs.Rows.{replaced};

use crate::mirror::Manner;
use crate::output_row::{put_answer, put_replaced, put_stopped};
use crate::stop::Stop;
use crate::talk::Talk;
use coop_request::Piece;
use follow_text::laws::replaced_by_edits;
use follow_text::{Carried, Replacement, Span, letter_count, letter_place};
use host_core::Keeper;
use peer_core::laws::own_edits;
use peer_step::{Answer, LocalEdit, Step};
use std::alloc::Global;
use text_change::Told;

// More pieces than a text has.
const MOST_PIECES: usize = u32::MAX as usize;

// How many edits were made, and the line of the answer to the first that wasn't, if any.
#[derive(Drop)]
struct Written {
    count: u64,
    refusal: Vec<u8>,
}

// The bytes of a range of letters; none where it ends past the text.
fn span_of(bytes: &[u8], from: usize, to: usize) -> Option<Span>
    ensures from { IfSome result (λ span. IsLetterPlace bytes.now from span.from) }
    ensures to { IfSome result (λ span. IsLetterPlace (drop span.from bytes.now) (to - from) (span.to - span.from)) }
{
    let start = letter_place(bytes, from)?;
    let (_, rest) = bytes.split_at(start);
    let len = letter_place(rest, to.saturating_sub(from))?;
    Some(Span {
        from: start,
        to: start + len,
    })
}

// How many bytes of a range stand in front of a place.
fn len_before(left: &[Span], at: usize) -> usize {
    let mut sum = 0usize;
    for span in left {
        sum = sum.saturating_add(span.to.min(at).saturating_sub(span.from));
    }
    sum
}

// The one range that is replaced, if it is one, and the new text goes where it begins.
fn whole_of(carried: &Carried) -> Option<Span> {
    match carried.left.as_slice() {
        [] => Some(Span {
            from: carried.at,
            to: carried.at,
        }),
        [span] if span.from == carried.at => Some(*span),
        _ => None,
    }
}

// The line of the answer to a range that ends past a text.
fn no_place(alloc: Global, bytes: &[u8]) -> Result<Vec<u8>, Stop> {
    let len = u32::try_from(letter_count(bytes)).unwrap_or(u32::MAX);
    let answer = Answer::BadPlace(len);
    let mut line = Vec::new(alloc);
    let put = put_answer(alloc, &mut line, &answer);
    drop(answer);
    put?;
    Ok(line)
}

// Whether an edit was made.
fn is_done(answer: &Answer) -> bool
    ensures { result ≡ is_done answer.now }
{
    match answer {
        Answer::Done(_) => true,
        _ => false,
    }
}

impl<K: Keeper> Talk<K> {
    // Makes an edit of the device's own, of which the program knows. False where it isn't made.
    fn edit(&mut self, edit: LocalEdit, written: &mut Written) -> Result<bool, Stop>
        ensures { IfOk result (λ made. made ≡ true → self.new.mirror.shown ≡ text_edited self.old.mirror.shown edit) }
    {
        own_edits();
        // a follower's peer is sound
        let _ = self.follower.peer();
        let told = self.make(Step::Edit(edit))?;
        let made = self.note_edit(&told, written);
        drop(told);
        made
    }

    // Shows an edit that was made, or notes the answer to one that wasn't.
    fn note_edit(&mut self, told: &Told, written: &mut Written) -> Result<bool, Stop>
        requires { ∥ text_told self.old.mirror.shown told.now.rows.items ≡ text (follow_peer self.old.follower.outbox) ∥₁ }
        ensures shown { OnOk result (self.new.mirror.shown ≡ text_told self.old.mirror.shown told.now.rows.items) }
        ensures done { IfOk result (λ made. made ≡ is_done told.now.answer) }
    {
        self.show(&told.rows, Manner::Known)?;
        if !is_done(&told.answer) {
            put_answer(self.alloc, &mut written.refusal, &told.answer)?;
            return Ok(false);
        }
        written.count = written.count.saturating_add(1);
        Ok(true)
    }

    // Takes so many pieces out from a place on.
    fn take_out(&mut self, at: u32, out: usize, written: &mut Written) -> Result<bool, Stop>
        ensures { IfOk result (λ made. made ≡ true → self.new.mirror.shown ≡ text_told self.old.mirror.shown (deletions at out)) }
    {
        for gone in 0..out {
            let _ = gone;
            if !self.edit(LocalEdit::Delete { at }, written)? {
                return Ok(false);
            }
        }
        Ok(true)
    }

    // Puts pieces in from a place on.
    fn put_in(&mut self, at: u32, put: &[Piece], written: &mut Written) -> Result<bool, Stop>
        requires { at + length put.now < 2 ^ 32 }
        ensures { IfOk result (λ made. made ≡ true → self.new.mirror.shown ≡ text_told self.old.mirror.shown (inserts at put.now)) }
    {
        for (number, letter) in put.iter().enumerate() {
            let letter = *letter;
            let at = at + number as u32;
            if !self.edit(LocalEdit::Insert { at, letter }, written)? {
                return Ok(false);
            }
        }
        Ok(true)
    }

    // Replaces a range of the text that shows. False where an edit isn't made; those behind it aren't tried.
    fn write_span(&mut self, span: Span, text: &[u8], written: &mut Written) -> Result<bool, Stop>
        ensures { IfOk result (λ made. made ≡ true
            → concat self.new.mirror.shown ≡ replaced (concat self.old.mirror.shown) span.from (span.to - span.from) text.now) }
    {
        replaced_by_edits();
        let Replacement { at, out, put } = self.mirror.shown.replacement(span, text)?;
        let written = self.write_pieces(at, out, &put, written);
        drop(put);
        written
    }

    // Puts pieces in place of so many from a place on.
    fn write_pieces(
        &mut self,
        at: usize,
        out: usize,
        put: &[Piece],
        written: &mut Written,
    ) -> Result<bool, Stop>
        ensures { IfOk result (λ made. made ≡ true
            → self.new.mirror.shown ≡ text_told (text_told self.old.mirror.shown (deletions at out)) (inserts at put.now)) }
    {
        if at >= MOST_PIECES || put.len() >= MOST_PIECES - at {
            return Err(Stop::NoMemory);
        }
        let at = at as u32;
        if !self.take_out(at, out, written)? {
            return Ok(false);
        }
        self.put_in(at, put, written)
    }

    // Replaces what is left of a range, from its end on, so that what is in front of that stays where it is.
    fn write_parts(
        &mut self,
        carried: &Carried,
        text: &[u8],
        written: &mut Written,
    ) -> Result<bool, Stop> {
        for span in carried.left.iter().rev() {
            if !self.write_span(*span, &[], written)? {
                return Ok(false);
            }
        }
        let at = carried
            .at
            .saturating_sub(len_before(&carried.left, carried.at));
        self.write_span(Span { from: at, to: at }, text, written)
    }

    // Replaces what is left of a range, and answers that.
    fn write(&mut self, carried: &Carried, text: &[u8]) -> Result<(), Stop> {
        let mut written = Written {
            count: 0,
            refusal: Vec::new(self.alloc),
        };
        match whole_of(carried) {
            Some(span) => self.write_span(span, text, &mut written)?,
            None => self.write_parts(carried, text, &mut written)?,
        };
        let answered = self.answer_written(&written);
        drop(written);
        answered
    }

    // Answers a range that was replaced, or wasn't.
    fn answer_written(&mut self, written: &Written) -> Result<(), Stop> {
        if written.refusal.is_empty() {
            put_replaced(&mut self.mirror.said, written.count)?;
        } else {
            put_stopped(&mut self.mirror.said, written.count, &written.refusal)?;
        }
        Ok(())
    }

    // Answers a range that ends past the program's text.
    fn refuse_place(&mut self) -> Result<(), Stop> {
        let refusal = no_place(self.alloc, self.mirror.program_text())?;
        put_stopped(&mut self.mirror.said, 0, &refusal)?;
        Ok(())
    }

    /// Puts a text in place of the letters from one place up to another. What is left of these is taken out by deletes of
    /// whole pieces, and the text, with what stands beside it in these, is put in by inserts of pieces of up to 255 bytes.
    /// The first edit that isn't made ends it, and those before stay.
    pub(crate) fn replace(&mut self, from: usize, to: usize, text: &[u8]) -> Result<(), Stop> {
        let Some(span) = span_of(self.mirror.program_text(), from, to) else {
            return self.refuse_place();
        };
        let carried = self.mirror.carried(span)?;
        let tracked = self.mirror.tracked.take();
        self.write(&carried, text)?;
        drop(carried);
        match tracked {
            Some(tracked) => Ok(self.mirror.tell_rest(tracked, span, text)?),
            None => Ok(()),
        }
    }
}
