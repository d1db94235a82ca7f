//! What a step may change in the shown text, as it stands before the step.
ghost use Rattle.std.specs.Prelude.{◌≡◌, ◌≤◌, None, Some, IfOk, length, vec_capacity};
ghost use Rattle.edit_message.specs.Formed.{is_message};
ghost use Rattle.edit_message.specs.Message.{request_in};
ghost use Rattle.std.specs.Prelude.{IsTrue};
ghost use Rattle.peer_step.specs.declared.step.Step.{Step};
ghost use Rattle.peer_core.specs.Peer.{Peer};
ghost use Rattle.peer_core.specs.Answers.{answer_of};
ghost use Rattle.peer_core.specs.After.{peer_after};
ghost use Rattle.peer_core.specs.Changes.{is_received};
ghost use Rattle.text_change.specs.Told.{step_edit, is_done, request_by, AreRowsOf};
ghost use Rattle.text_change.specs.Ahead.{most_rows, IsAheadOf};

use crate::seen::{Seen, put_rows, seen_at};
use coop_request::Request;
use edit_message::Message;
use element_name::NoMemory;
use peer_core::Peer;
use peer_step::{Answer, LocalEdit, Step};
use std::alloc::Global;
use std::collections::BTreeMap;

/// What may change at a step.
#[derive(Drop)]
pub(crate) enum Touched {
    /// An edit of the peer's own is its row, where it is made.
    Own(LocalEdit),
    /// A request of another site changes its element alone.
    One(Seen),
    /// An entry changes the elements of the requests that it undoes alone.
    Many(BTreeMap<usize, Seen>),
}

/// What a step may change in the shown text, as it stands before the step, with room for the rows that will tell it.
///
/// It is for a peer that somebody else steps. Of a peer at hand [`step_told`](crate::step_told) does all at once.
#[derive(Drop)]
pub struct Ahead {
    touched: Touched,
    rows: Vec<LocalEdit>,
    // No row is there yet, and there is room for all.
    ghost none: { length rows.items ≡ 0 },
    ghost room: { most_rows touched ≤ vec_capacity rows },
}

// The edit of a step that edits.
fn step_edit(step: &Step) -> Option<LocalEdit>
    ensures { result ≡ step_edit step.now }
{
    match step {
        Step::Edit(edit) => Some(*edit),
        _ => None,
    }
}

// Whether an edit is made.
fn is_done(answer: &Answer) -> bool
    ensures { result ≡ is_done answer.now }
{
    match answer {
        Answer::Done(_) => true,
        _ => false,
    }
}

// Another site's request that a step may integrate.
fn request_by(peer: &Peer, step: &Step) -> Option<Request>
    ensures request { result ≡ request_by peer.now step.now }
    ensures formed { IsTrue (is_received step.now) }
{
    match step {
        Step::Receive(message) => request_in(message),
        Step::Settle => request_in(peer.due()?),
        Step::Edit(_) => None,
        Step::Administer(_) => None,
        Step::ValidateNext => None,
        Step::Look { .. } => None,
        Step::Show => None,
    }
}

// The request of a message.
fn request_in(message: &Message) -> Option<Request>
    ensures request { result ≡ request_in message.now }
    ensures formed { IsTrue (is_message message.now) }
{
    // a message that has a key is well formed
    let _ = message.key();
    match message {
        Message::Coop(request) => Some(*request),
        Message::Admin(_) => None,
    }
}

impl Ahead {
    // What an entry may change.
    fn of_entry(alloc: Global, peer: &Peer, step: &Step) -> Result<Ahead, NoMemory>
        requires other { step_edit step.now ≡ None }
        requires entry { request_by peer.now step.now ≡ None }
        requires formed { IsTrue (is_received step.now) }
        ensures { IfOk result (λ ahead. IsAheadOf peer.now step.now ahead.touched) }
    {
        // a peer that has a site is sound
        let _ = peer.site();
        let elements = peer.undoable(step)?;
        let seen = seen_at(alloc, peer, &elements)?;
        let rows = Vec::with_capacity(alloc, seen.len())?;
        Ok(Ahead {
            touched: Touched::Many(seen),
            rows,
        })
    }

    // What a request of another site may change.
    fn of_request(
        alloc: Global,
        peer: &Peer,
        step: &Step,
        request: Request,
    ) -> Result<Ahead, NoMemory>
        requires request { request_by peer.now step.now ≡ Some request }
        requires formed { IsTrue (is_received step.now) }
        ensures { IfOk result (λ ahead. IsAheadOf peer.now step.now ahead.touched) }
    {
        // a peer that has a site is sound
        let _ = peer.site();
        let seen = Seen::of(alloc, peer, request.element())?;
        let rows = Vec::with_capacity(alloc, 1)?;
        Ok(Ahead {
            touched: Touched::One(seen),
            rows,
        })
    }

    // What an edit of the peer's own may change.
    fn of_edit(alloc: Global, peer: &Peer, step: &Step, edit: LocalEdit) -> Result<Ahead, NoMemory>
        requires edit { step.now ≡ Step.Edit edit }
        ensures { IfOk result (λ ahead. IsAheadOf peer.now step.now ahead.touched) }
    {
        // a peer that has a site is sound
        let _ = peer.site();
        let rows = Vec::with_capacity(alloc, 1)?;
        Ok(Ahead {
            touched: Touched::Own(edit),
            rows,
        })
    }

    /// What a step of the peer may change.
    ///
    /// Time: an entry takes a few look-ups for each Tentative request within its reach, and no other step more than one.
    ///
    /// Memory: room for as many rows as elements have a Tentative request within the entry's reach, and for a while what
    /// shows of these, about 400 bytes for each; of another step, room for one row.
    pub fn of(alloc: Global, peer: &Peer, step: &Step) -> Result<Ahead, NoMemory>
        ensures { IfOk result (λ ahead. IsAheadOf peer.now step.now ahead.touched) }
    {
        if let Some(edit) = step_edit(step) {
            return Ahead::of_edit(alloc, peer, step, edit);
        }
        match request_by(peer, step) {
            Some(request) => Ahead::of_request(alloc, peer, step, request),
            None => Ahead::of_entry(alloc, peer, step),
        }
    }

    /// The rows that tell what the step changed, of the peer after it and of its answer. Takes no memory, and for each
    /// row the time of `Peer::shown_up_to`.
    pub fn rows(self, peer: &Peer, answer: &Answer) -> Vec<LocalEdit>
        ensures { (old : Peer) (step : Step) → IsAheadOf old step self.touched → answer.now ≡ answer_of old step → peer.now ≡ peer_after old step
            → AreRowsOf old peer.now result.items }
    {
        let Ahead { touched, mut rows } = self;
        match touched {
            Touched::Own(edit) => {
                if is_done(answer) {
                    rows.push_reserved(edit);
                }
            }
            Touched::One(seen) => {
                if let Some(row) = seen.row(peer) {
                    rows.push_reserved(row);
                }
            }
            Touched::Many(seen) => put_rows(peer, &seen, &mut rows),
        }
        rows
    }
}
