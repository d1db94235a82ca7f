//! What is told of a peer's answers.
ghost use Rattle.std.specs.Prelude.{◌≡◌, ℕ, ◌++◌, List, [], None, OnOk};
ghost use Rattle.peer_step.specs.declared.answer.Answer.{Answer};
ghost use Rattle.line_spelling.specs.Answers.{answer_line};
ghost use Rattle.peer_step.specs.Lent.{answer_told};

use element_name::NoMemory;
use line_write::{put_answer_line, put_request_answer_line};
use peer_step::{Answer, RequestAnswer};

/// What a peer's answers are told to.
pub(crate) trait Telling {
    // What it was told so far.
    ghost told: { Self → List ℕ };

    // What it is told of an answer.
    ghost line: { Answer → List ℕ };

    /// Tells an answer.
    fn tell(&mut self, answer: &Answer) -> Result<(), NoMemory>
        ensures { OnOk result (told self.new ≡ told self.old ++ line answer.now) };

    /// Tells an answer to a request that comes, by what is told of it.
    fn tell_received(&mut self, answer: RequestAnswer) -> Result<(), NoMemory>
        ensures { OnOk result (told self.new ≡ told self.old ++ line (answer_told answer)) };
}

/// An output, to which an answer's line is appended.
impl Telling for Vec<u8> {
    ghost told = { λ out. out.items };

    ghost line = { answer_line None };

    fn tell(&mut self, answer: &Answer) -> Result<(), NoMemory> {
        put_answer_line(self, None, answer)
    }

    fn tell_received(&mut self, answer: RequestAnswer) -> Result<(), NoMemory> {
        put_request_answer_line(self, answer)
    }
}

/// Nobody, who is told nothing.
#[derive(Drop)]
pub(crate) struct Nobody;

impl Telling for Nobody {
    ghost told = { λ _. [] };

    ghost line = { λ _. [] };

    fn tell(&mut self, _answer: &Answer) -> Result<(), NoMemory> {
        Ok(())
    }

    fn tell_received(&mut self, _answer: RequestAnswer) -> Result<(), NoMemory> {
        Ok(())
    }
}
