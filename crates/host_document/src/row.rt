//! Rows of orders to a document, as lines.
ghost use Rattle.std.specs.Prelude.{◌≡◌, [], IfOk, OnOk, Some, map};
ghost use Rattle.line_read.specs.Words.{bytes_of, each_some, parts};
ghost use Rattle.line_read.specs.Step.{step_line};
ghost use Rattle.host_interface.specs.Rows.{orders_of};

use host_interface::RowFault;
use line_read::step_line;
use line_spelling::{LINE_END, LineFail};
use peer_step::Step;
use std::alloc::{AllocError, Global};

/// How many lines a row of orders may have.
pub const MAX_ROW: usize = 64;

// Whether a step is an order.
fn is_order(step: &Step) -> bool {
    matches!(step, Step::Edit(_) | Step::Administer(_))
}

// A step of the line of this number, if it is an order.
fn order_alone(number: usize, step: Step) -> Result<Step, RowFault>
    ensures { IfOk result (λ order. order ≡ step) }
{
    if is_order(&step) {
        Ok(step)
    } else {
        drop(step);
        Err(RowFault::BadLine(number))
    }
}

/// The order of a line, which has this number in its row.
pub(crate) fn read_order(alloc: Global, number: usize, line: &[u8]) -> Result<Step, RowFault>
    ensures { IfOk result (λ order. step_line line.now ≡ Some order) }
{
    match step_line(alloc, line) {
        Ok(step) => order_alone(number, step),
        Err(LineFail::NoMemory) => Err(RowFault::NoMemory),
        Err(LineFail::Bad) => Err(RowFault::BadLine(number)),
    }
}

// The lines between the line ends.
fn lines_of(alloc: Global, text: &[u8]) -> Result<Vec<&[u8]>, AllocError>
    ensures { IfOk result (λ found. bytes_of found.items ≡ parts LINE_END text.now) }
{
    text.split(|b| *b == LINE_END).collect(alloc)
}

// Puts the orders of these lines into a row, which is empty.
fn put_orders(alloc: Global, lines: &[&[u8]], row: &mut Vec<Step>) -> Result<(), RowFault>
    requires { row.old.items ≡ [] }
    ensures { OnOk result (each_some (map step_line (bytes_of lines.now)) ≡ Some row.new.items) }
{
    let mut number = 0usize;
    for line in lines {
        number = number.saturating_add(1);
        let step = read_order(alloc, number, line)?;
        row.push(step)?;
    }
    Ok(())
}

// The orders of these lines, one each.
fn read_orders(alloc: Global, lines: &[&[u8]]) -> Result<Vec<Step>, RowFault>
    ensures { IfOk result (λ row. each_some (map step_line (bytes_of lines.now)) ≡ Some row.items) }
{
    let mut row = Vec::new(alloc);
    match put_orders(alloc, lines, &mut row) {
        Ok(()) => Ok(row),
        Err(fault) => {
            drop(row);
            Err(fault)
        }
    }
}

// The orders of a text's lines.
fn read_text(alloc: Global, text: &[u8]) -> Result<Vec<Step>, RowFault>
    ensures { IfOk result (λ row. orders_of text.now ≡ Some row.items) }
{
    let lines = lines_of(alloc, text)?;
    if lines.len() > MAX_ROW {
        return Err(RowFault::TooLong);
    }
    read_orders(alloc, &lines)
}

// The place of an edit that isn't alone.
fn edit_among(row: &[Step]) -> Option<usize> {
    if row.len() <= 1 {
        return None;
    }
    row.iter().position(|it| matches!(it, Step::Edit(_)))
}

/// The orders of a text's lines: operations alone, or one edit.
pub(crate) fn read_row(alloc: Global, text: &[u8]) -> Result<Vec<Step>, RowFault>
    ensures { IfOk result (λ row. orders_of text.now ≡ Some row.items) }
{
    let row = read_text(alloc, text)?;
    match edit_among(&row) {
        Some(at) => {
            drop(row);
            Err(RowFault::BadLine(at.saturating_add(1)))
        }
        None => Ok(row),
    }
}
