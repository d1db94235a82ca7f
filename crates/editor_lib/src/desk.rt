//! A peer, with what it told last.
ghost use Rattle.std.specs.Prelude.{◌≡◌, List, Some, Err, IfOk};
ghost use Rattle.edit_message.specs.declared.message.Message.{Message};
ghost use Rattle.line_read.specs.Step.{step_line};
ghost use Rattle.editor_lib.specs.declared.journal.JournalFail.TheVariants.{Bad as bad};
ghost use Rattle.editor_lib.specs.Answers.{answer_to};
ghost use Rattle.editor_lib.specs.Desk.{fresh_desk, step_received, IsRestored, StepMade, Asked};
ghost use Rattle.editor_lib.specs.Journal.{SpellsJournal};

use crate::code::Code;
use crate::journal::{JournalFail, messages_of};
use crate::question::{Question, answer};
use crate::told::LastTold;
use edit_frame::{DecodeFail, Frame, decode};
use element_name::NoMemory;
use line_read::step_line;
use line_spelling::LineFail;
use peer_core::{OneThread, Peer};
use peer_step::Step;
use std::alloc::Global;
use std::marker::Model;
use text_change::step_told;

/// A peer, and what was told of its last step or question.
#[derive(Drop)]
pub struct Desk {
    peer: Peer,
    told: LastTold,
}

impl Model for Desk {
    ghost use Rattle.editor_lib.specs.Desk as values;

    ghost Value = { values.Desk };

    ghost view = { λ d. record { peer = d.peer; told = d.told } };
}

impl Desk {
    /// The desk of a fresh peer of a site, with nothing told.
    pub fn new(alloc: Global, site: u16) -> Result<Desk, NoMemory>
        ensures { IfOk result (λ desk. desk ≡ fresh_desk site) }
    {
        Ok(Desk {
            peer: Peer::new(alloc, site)?,
            told: LastTold::nothing(alloc),
        })
    }

    /// The desk of a site's peer whose journal the bytes are, by the frames of its messages one behind another, with
    /// nothing told. Takes the time that the peer took to integrate the messages, and, beside the peer's memory, for
    /// a while that of the messages.
    pub fn restore(alloc: Global, site: u16, frames: &[u8]) -> Result<Desk, JournalFail>
        ensures desk { IfOk result (IsRestored site frames.now) }
        ensures bad { result ≡ Err bad → (journal : List Message) → ¬ SpellsJournal frames.now journal }
    {
        let messages = messages_of(alloc, frames)?;
        Ok(Desk {
            peer: Peer::restore(alloc, site, &messages)?,
            told: LastTold::nothing(alloc),
        })
    }

    // Makes a step, and tells of it.
    fn make(&mut self, alloc: Global, step: Step) -> Code
        ensures { StepMade result (Some step) self.old self.new }
    {
        let Ok(made) = step_told(alloc, &mut self.peer, step, &OneThread) else {
            return Code::NoMemory;
        };
        let told = LastTold::of(alloc, &made.answer, &made.rows);
        drop(made);
        match told {
            Ok(told) => {
                self.told = told;
                Code::Done
            }
            Err(NoMemory) => {
                self.told = LastTold::nothing(alloc);
                Code::Untold
            }
        }
    }

    /// Makes the step that a step line says, given without its line end, and tells of it.
    pub fn step(&mut self, alloc: Global, line: &[u8]) -> Code
        ensures { StepMade result (step_line line.now) self.old self.new }
    {
        match step_line(alloc, line) {
            Ok(step) => self.make(alloc, step),
            Err(LineFail::Bad) => Code::Bad,
            Err(LineFail::NoMemory) => Code::NoMemory,
        }
    }

    /// Receives the message whose frame is all of the bytes, and tells of it.
    pub fn receive(&mut self, alloc: Global, frame: &[u8]) -> Code
        ensures { StepMade result (step_received frame.now) self.old self.new }
    {
        match decode(alloc, frame) {
            Ok(Frame::Item(message)) => self.make(alloc, Step::Receive(message)),
            Ok(Frame::Turn | Frame::End) => Code::Bad,
            Err(DecodeFail::Fault(_)) => Code::Bad,
            Err(DecodeFail::NoMemory) => Code::NoMemory,
        }
    }

    /// Tells what answers a question. Takes the time and memory of [`answer`].
    pub fn ask(&mut self, alloc: Global, question: Question<'_>) -> Code
        ensures { Asked result (answer_to question.entry self.old.peer) self.old self.new }
    {
        match answer(alloc, &self.peer, question) {
            Ok(Some(bytes)) => {
                self.told.set_answer(bytes);
                Code::Done
            }
            Ok(None) => Code::Bad,
            Err(NoMemory) => Code::NoMemory,
        }
    }

    /// What was told.
    pub fn told(&self) -> &LastTold
        ensures { result.now ≡ self.now.told }
    {
        &self.told
    }
}
