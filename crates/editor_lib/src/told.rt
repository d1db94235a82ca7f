//! What is told of a step: the line of its answer, the frame of the message that this gives, and the lines of the rows of what
//! it changed in the text.
ghost use Rattle.std.specs.Prelude.{◌≡◌, length, map, IfOk};
ghost use Rattle.std.specs.List.{concat};
ghost use Rattle.editor_lib.specs.Told as spec;
ghost use Rattle.editor_lib.specs.Told.{message_given, frame_bytes, kept_state_line, element_word, count_word, told, part_told};

use crate::lines::{HasLine, all_lines};
use edit_frame::{Frame, encode};
use edit_message::Message;
use element_name::{Name, NoMemory};
use line_write::{answer_line, put, put_state, step_text};
use peer_step::{Answer, LocalEdit, Step, Text};
use request_state::State;
use std::alloc::Global;
use std::marker::Model;

/// An answer's line, a message's frame, and the lines of rows, each as bytes, of which any may be empty.
#[derive(Drop)]
pub struct LastTold {
    answer: Vec<u8>,
    frame: Vec<u8>,
    rows: Vec<u8>,
}

/// What can be asked for of it.
#[derive(Clone, Copy, Debug, PartialEq, Eq)]
pub enum ToldPart {
    /// The answer's bytes.
    Answer,
    /// The frame of the message that the answer gave.
    Frame,
    /// The lines of the rows of what the step changed.
    Rows,
}

impl Model for LastTold {
    ghost use Rattle.editor_lib.specs.Told as values;

    ghost Value = { values.LastTold };

    ghost view = { λ t. record { answer = t.answer.items; frame = t.frame.items; rows = t.rows.items } };
}

// The message that an answer gives.
fn message_given(answer: &Answer) -> Result<Option<Message>, NoMemory>
    ensures { IfOk result (λ message. message ≡ message_given answer.now) }
{
    let message = match answer {
        Answer::Done(request) => Message::Coop(*request),
        Answer::Issued(entry, _) => Message::Admin(entry.copied()?),
        Answer::Item(Some(item)) => item.copied()?,
        Answer::BadPlace(_)
        | Answer::ClockEnd
        | Answer::HistoryFull
        | Answer::Denied { .. }
        | Answer::NotAdministrator
        | Answer::LogFull
        | Answer::Refused(_)
        | Answer::NotHere(_)
        | Answer::NeedsNone
        | Answer::AlreadyInvalid(_)
        | Answer::NothingTentative
        | Answer::Repeat
        | Answer::Conflict(_)
        | Answer::OwnSite
        | Answer::OwnLog
        | Answer::Illegal(_)
        | Answer::HoldFull
        | Answer::Held(_)
        | Answer::Taken(_)
        | Answer::Advanced(_, _)
        | Answer::Quiet
        | Answer::Dropped(_, _)
        | Answer::Settled(_, _)
        | Answer::Item(None)
        | Answer::Shown(_) => return Ok(None),
    };
    Ok(Some(message))
}

// The frame of a message, and no bytes where there is none.
fn frame_bytes(alloc: Global, message: Option<Message>) -> Result<Vec<u8>, NoMemory>
    ensures { IfOk result (λ frame. frame.items ≡ frame_bytes message) }
{
    let mut frame = Vec::new(alloc);
    if let Some(message) = message {
        encode(alloc, &Frame::Item(message), &mut frame)?;
    }
    Ok(frame)
}

impl HasLine for LocalEdit {
    ghost use Rattle.editor_lib.specs.Told.{row_line};

    ghost line = { row_line };

    fn put_line(self, alloc: Global, lines: &mut Vec<u8>) -> Result<(), NoMemory> {
        step_text(alloc, &Step::Edit(self), lines)?;
        put(lines, b"\n")
    }
}

/// The line of the state of a request, and no bytes where there is none.
pub fn kept_state_line(alloc: Global, state: Option<State>) -> Result<Vec<u8>, NoMemory>
    ensures { IfOk result (λ line. line.items ≡ kept_state_line state) }
{
    let mut line = Vec::new(alloc);
    if let Some(state) = state {
        put(&mut line, b"state")?;
        put_state(&mut line, state)?;
        put(&mut line, b"\n")?;
    }
    Ok(line)
}

/// The word of the name of an element, and no bytes where there is none.
pub fn element_word(alloc: Global, element: Option<Name>) -> Result<Vec<u8>, NoMemory>
    ensures { IfOk result (λ word. word.items ≡ element_word element) }
{
    let Some(element) = element else {
        return Ok(Vec::new(alloc));
    };
    let stamp = element.stamp();
    let site = element.site();
    Ok(format!(in alloc; "{stamp}.{site}")?.into_bytes())
}

/// The digits of a count, and no bytes where there is none.
pub fn count_word(alloc: Global, count: Option<u32>) -> Result<Vec<u8>, NoMemory>
    ensures { IfOk result (λ digits. digits.items ≡ count_word count) }
{
    let Some(count) = count else {
        return Ok(Vec::new(alloc));
    };
    Ok(format!(in alloc; "{count}")?.into_bytes())
}

/// The digits of a site, and no bytes where there is none.
pub fn site_word(alloc: Global, site: Option<u16>) -> Result<Vec<u8>, NoMemory>
    ensures { IfOk result (λ digits. digits.items ≡ count_word site) }
{
    let Some(site) = site else {
        return Ok(Vec::new(alloc));
    };
    Ok(format!(in alloc; "{site}")?.into_bytes())
}

/// The bytes of a text. Takes time and memory in their number.
pub fn text_bytes(alloc: Global, text: &Text) -> Result<Vec<u8>, NoMemory>
    ensures { IfOk result (λ bytes. bytes.items ≡ concat text.now) }
{
    Ok(Vec::from_slice(alloc, text.as_str().as_bytes())?)
}

/// The sizes of a text's pieces. Takes time and memory in their number.
pub fn piece_sizes(alloc: Global, text: &Text) -> Result<Vec<u8>, NoMemory>
    ensures { IfOk result (λ sizes. sizes.items ≡ map length text.now) }
{
    let mut sizes = Vec::with_capacity(alloc, text.len())?;
    for place in 0..text.len() {
        let Some(size) = text.size(place) else {
            unreachable!()
        };
        sizes.push(size)?;
    }
    Ok(sizes)
}

impl LastTold {
    /// Nothing told. Takes no memory.
    pub fn nothing(alloc: Global) -> LastTold
        ensures { result ≡ spec.nothing }
    {
        LastTold {
            answer: Vec::new(alloc),
            frame: Vec::new(alloc),
            rows: Vec::new(alloc),
        }
    }

    /// What is told of an answer and of rows. Takes time in the length of their lines.
    pub fn of(alloc: Global, answer: &Answer, rows: &[LocalEdit]) -> Result<LastTold, NoMemory>
        ensures { IfOk result (λ it. it ≡ told answer.now rows.now) }
    {
        let mut line = Vec::new(alloc);
        answer_line(alloc, None, answer, &mut line)?;
        Ok(LastTold {
            answer: line,
            frame: frame_bytes(alloc, message_given(answer)?)?,
            rows: all_lines(alloc, rows)?,
        })
    }

    /// Puts bytes in place of the answer's line.
    pub fn set_answer(&mut self, answer: Vec<u8>)
        ensures { self.new ≡ record self.old { answer = answer.items } }
    {
        self.answer = answer;
    }

    /// A part of it.
    pub fn part(&self, part: ToldPart) -> &[u8]
        ensures { result.now ≡ part_told part self.now }
    {
        match part {
            ToldPart::Answer => &self.answer,
            ToldPart::Frame => &self.frame,
            ToldPart::Rows => &self.rows,
        }
    }
}
