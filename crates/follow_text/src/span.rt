//! Ranges of bytes that are carried over changes that came.
ghost use Rattle.std.specs.Prelude.{◌≡◌, ◌≤◌, IfOk};

use crate::text_row::TextRow;
use std::alloc::{AllocError, Global};

/// The bytes from one place up to another, which doesn't stand in front of it.
#[derive(Clone, Copy)]
pub struct Span {
    pub from: usize,
    pub to: usize,
    ghost order: { from ≤ to },
}

/// A range that is to be replaced, after changes that came: what is left of it, in order, and where the new text goes.
#[derive(Drop)]
pub struct Carried {
    pub left: Vec<Span>,
    pub at: usize,
}

impl Carried {
    /// A range over which nothing was carried yet.
    pub fn new(alloc: Global, span: Span) -> Result<Carried, AllocError>
        ensures { IfOk result (λ carried. carried.at ≡ span.from) }
    {
        let mut left = Vec::new(alloc);
        push_part(&mut left, span.from, span.to)?;
        Ok(Carried {
            left,
            at: span.from,
        })
    }

    /// Carries it over a change. What the change took out is gone from it, and what it put in isn't taken.
    pub fn over(&self, alloc: Global, row: &TextRow) -> Result<Carried, AllocError> {
        let mut left = Vec::new(alloc);
        for span in &self.left {
            push_carried(&mut left, *span, row)?;
        }
        Ok(Carried {
            left,
            at: carried_place(self.at, row),
        })
    }
}

// Keeps what of a span stands in front of a change, and what stands behind it, where it stands then.
fn push_carried(left: &mut Vec<Span>, span: Span, row: &TextRow) -> Result<(), AllocError> {
    push_part(left, span.from, span.to.min(row.at))?;
    let end = row.at.saturating_add(row.out);
    push_part(
        left,
        shifted(span.from.max(end), row),
        shifted(span.to.max(end), row),
    )
}

// Keeps the bytes from one place up to another, unless there are none.
fn push_part(left: &mut Vec<Span>, from: usize, to: usize) -> Result<(), AllocError> {
    if from < to {
        left.push(Span { from, to })?;
    }
    Ok(())
}

// Where a place behind a change stands then.
fn shifted(place: usize, row: &TextRow) -> usize {
    place.saturating_sub(row.out).saturating_add(row.put.len())
}

// Where a place stands after a change. One at which text came stands behind that.
fn carried_place(place: usize, row: &TextRow) -> usize {
    if place < row.at {
        return place;
    }
    let end = row.at.saturating_add(row.out);
    shifted(place.max(end), row)
}
