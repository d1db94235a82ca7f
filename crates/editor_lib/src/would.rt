//! The steps that lines say, and the requests that these would undo.
ghost use Rattle.std.specs.Prelude.{◌≡◌, [], Some, map, flat_map, IfOk, IfErr, OnOk};
ghost use Rattle.line_read.specs.ReadsAs.{ReadFails, ReadsItems};
ghost use Rattle.line_read.specs.Step.{step_line};
ghost use Rattle.line_read.specs.Words.{bytes_of, each_some, parts};
ghost use Rattle.peer_outlook.specs.Outlook.{names_undone_by};
ghost use Rattle.editor_lib.specs.Would.{steps_said, name_line};

use crate::lines::{HasLine, all_lines};
use crate::told::element_word;
use element_name::{Name, NoMemory};
use line_read::step_line;
use line_spelling::{LINE_END, LineFail};
use line_write::put;
use peer_core::Peer;
use peer_outlook::undone_by;
use peer_step::Step;
use std::alloc::{AllocError, Global};

// The lines between the line ends.
fn lines_of(alloc: Global, text: &[u8]) -> Result<Vec<&[u8]>, AllocError>
    ensures { IfOk result (λ found. bytes_of found.items ≡ parts LINE_END text.now) }
{
    text.split(|b| *b == LINE_END).collect(alloc)
}

// Puts the steps of these lines into a row, which is empty.
fn put_steps(alloc: Global, lines: &[&[u8]], row: &mut Vec<Step>) -> Result<(), LineFail>
    requires { row.old.items ≡ [] }
    ensures ok { OnOk result (each_some (map step_line (bytes_of lines.now)) ≡ Some row.new.items) }
    ensures fail { IfErr result (λ fail. ReadFails fail (each_some (map step_line (bytes_of lines.now)))) }
{
    for line in lines {
        let step = step_line(alloc, line)?;
        row.push(step)?;
    }
    Ok(())
}

// The steps of these lines, one each.
fn read_steps(alloc: Global, lines: &[&[u8]]) -> Result<Vec<Step>, LineFail>
    ensures { ReadsItems result (each_some (map step_line (bytes_of lines.now))) }
{
    let mut row = Vec::new(alloc);
    match put_steps(alloc, lines, &mut row) {
        Ok(()) => Ok(row),
        Err(fail) => {
            drop(row);
            Err(fail)
        }
    }
}

/// The steps that step lines say, with a line end between two of them; none of no bytes. Takes time in their number.
///
/// `Bad` says that one of the lines isn't in the grammar.
pub fn steps_said(alloc: Global, text: &[u8]) -> Result<Vec<Step>, LineFail>
    ensures { ReadsItems result (steps_said text.now) }
{
    if text.is_empty() {
        return Ok(Vec::new(alloc));
    }
    let lines = lines_of(alloc, text)?;
    read_steps(alloc, &lines)
}

impl HasLine for Name {
    ghost use Rattle.editor_lib.specs.Would.{name_line};

    ghost line = { name_line };

    fn put_line(self, alloc: Global, lines: &mut Vec<u8>) -> Result<(), NoMemory> {
        let word = element_word(alloc, Some(self))?;
        put(lines, &word)?;
        put(lines, b"\n")
    }
}

/// The lines of the names of the requests that steps would undo, in order of integration. Takes the time and memory of
/// `peer_outlook::undone_by`.
pub fn undone_lines(alloc: Global, peer: &Peer, steps: &[Step]) -> Result<Vec<u8>, NoMemory>
    ensures { IfOk result (λ lines. lines.items ≡ flat_map name_line (names_undone_by peer.now steps.now)) }
{
    let names = undone_by(alloc, peer, steps)?;
    all_lines(alloc, &names)
}
