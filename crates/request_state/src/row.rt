//! The row of a request.
ghost use Rattle.std.specs.Prelude.{◌≡◌, [], is_some, option_and_then, IfOk, OnOk, OnErr, IsTrue};
ghost use Rattle.elem_show.specs.Cell.{shown};
ghost use Rattle.elem_show.specs.Counting.{HasRoomFor, counts_more, counts_less, has_cut};
ghost use Rattle.request_state.specs.Rows.{cell_of_row};

use crate::kept::Kept;
use crate::state::State;
use coop_request::{LentRequest, Right};
use elem_show::{Cell, Counts};
use element_name::{Name, NoMemory};
use std::alloc::Global;

/// What is kept of a request, and what is counted of the element that it makes, if it is an insert.
#[derive(Drop)]
pub(crate) struct Row {
    pub(crate) kept: Kept,
    pub(crate) counts: Counts,
}

impl Row {
    /// That of a new request, with nothing counted.
    pub(crate) fn of(
        alloc: Global,
        request: &LentRequest<'_>,
        state: State,
    ) -> Result<Row, NoMemory>
        ensures { IfOk result (λ r. r ≡ record {
          kept = record { request = request.now; state = state };
          counts = record { cuts = 0; letters = [] };
        }) }
    {
        let kept = Kept::of(alloc, request, state)?;
        Ok(Row {
            kept,
            counts: Counts::new(),
        })
    }

    /// What is kept of the request.
    pub(crate) fn kept(&self) -> &Kept
        ensures { result.now ≡ self.now.kept }
    {
        &self.kept
    }

    /// Another state.
    pub(crate) fn set_state(&mut self, state: State)
        ensures { self.new ≡ record {
          kept = record { request = self.old.kept.request; state = state };
          counts = self.old.counts;
        } }
    {
        self.kept.set_state(state);
    }

    /// The cell of the element that the request makes.
    pub(crate) fn cell(&self) -> Option<Cell<'_>>
        ensures { result ≡ cell_of_row self.now }
    {
        let own = self.kept.own()?;
        Some(Cell::of(self.kept.state().counts(), own, &self.counts))
    }

    /// Whether the request makes an element that shows.
    pub(crate) fn shows(&self) -> bool
        ensures { result ≡ is_some (option_and_then shown (cell_of_row self.now)) }
    {
        self.kept.is_made() && self.counts.cuts() == 0
    }

    /// One more delete or update of the element counts. Whether that shows then.
    pub(crate) fn count(
        &mut self,
        alloc: Global,
        request: &LentRequest<'_>,
    ) -> Result<bool, NoMemory>
        requires room { HasRoomFor request.now.id self.old.counts }
        ensures ok { OnOk result (self.new ≡ record { kept = self.old.kept; counts = counts_more request.now.id request.now.edit self.old.counts }) }
        ensures shows { IfOk result (λ shows. shows ≡ is_some (option_and_then shown (cell_of_row self.new))) }
        ensures err { OnErr result (self.new ≡ self.old) }
    {
        self.counts.count(alloc, request.id(), request.edit())?;
        Ok(self.shows())
    }

    /// A request of the element, of that name and right, counts no more.
    pub(crate) fn discount(&mut self, id: Name, right: Right)
        requires counted { IsTrue (has_cut right self.old.counts.cuts) }
        ensures { self.new ≡ record { kept = self.old.kept; counts = counts_less id right self.old.counts } }
    {
        self.counts.discount(id, right);
    }
}
