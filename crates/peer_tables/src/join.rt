//! What is kept of a journal, with one more request.
ghost use Rattle.std.specs.Prelude.{◌≡◌, ◌≤◌, length, List, true, IfOk, OnOk, OnErr, None};
ghost use Rattle.element_name.specs.Name.{has_name};
ghost use Rattle.coop_request.specs.Request.{element_of};
ghost use Rattle.request_state.specs.Table.{kept_shows, with_request};
ghost use Rattle.check_remote.specs.State.{state_by, state_of};
ghost use Rattle.tomb_seq.specs.declared.slot.Slot.{Slot};
ghost use Rattle.tomb_seq.specs.Slots.{names_in, with_mark};
ghost use Rattle.peer_tables.specs.Kept.{judged_by, names_after, slots_after, IsPlaceable, IsGivenState, IsJoinable};

use admin_log::AdminLog;
use auth_match::Judged;
use check_remote::check_remote_lent;
use coop_request::{LentEdit, LentRequest};
use element_name::{Name, NoMemory};
use request_state::{State, StateTable};
use tomb_seq::{Shows, TombSeq};

/// What a request is judged on: the new element, or its target.
pub(crate) fn judged(request: &LentRequest<'_>) -> Judged
    ensures { result ≡ judged_by request.now.id request.now.edit }
{
    match request.edit() {
        LentEdit::Insert { after, .. } => Judged::Fresh {
            name: request.id(),
            after: *after,
        },
        LentEdit::Delete { target } => Judged::There(*target),
        LentEdit::Update { target, .. } => Judged::There(*target),
    }
}

// An insert's element goes to its place.
fn place(seq: &mut TombSeq, request: &LentRequest<'_>) -> Result<(), NoMemory>
    requires { IsPlaceable (names_in seq.old) request.now.id request.now.edit }
    ensures slots { OnOk result (seq.new ≡ slots_after seq.old request.now.id request.now.edit) }
    ensures names { OnOk result (names_in seq.new ≡ names_after (names_in seq.old) request.now.id request.now.edit) }
    ensures unchanged { OnErr result (seq.new ≡ seq.old) }
{
    let LentEdit::Insert { after, .. } = request.edit() else {
        return Ok(());
    };
    seq.enter_new(request.id(), *after)
}

// It leaves its place again.
fn take_back(seq: &mut TombSeq, request: &LentRequest<'_>)
    requires { has_name (names_in seq.old) (element_of request.now) ≡ true }
    ensures { (slots : List Slot) → IsPlaceable (names_in slots) request.now.id request.now.edit
        → seq.old ≡ slots_after slots request.now.id request.now.edit → seq.new ≡ slots }
{
    if let LentEdit::Insert { .. } = request.edit() {
        seq.remove(request.id());
    }
}

// The state of a request: the one that is given, or what judging it over the log says.
fn state_given(
    log: &AdminLog,
    seq: &TombSeq,
    request: &LentRequest<'_>,
    given: Option<State>,
) -> Result<State, NoMemory>
    requires carried { request.now.version ≤ length log.now }
    requires element { has_name (names_in seq.now) (element_of request.now) ≡ true }
    requires given { IsGivenState given (names_in seq.now) log.now request.now }
    ensures { IfOk result (λ state. state ≡ state_of (names_in seq.now) log.now request.now) }
{
    match given {
        Some(state) => Ok(state),
        None => check_remote_lent(log, request, seq),
    }
}

/// The state of a granted request, by the version that validates it.
pub(crate) fn validated_state(validation: Option<u32>) -> State
    ensures { result ≡ state_by None validation }
{
    match validation {
        Some(at) => State::Valid { at },
        None => State::Tentative,
    }
}

// What became of a request that joined the states: its state, and whether its element shows.
#[derive(Clone, Copy)]
struct Joined {
    state: State,
    shows: bool,
}

// The request joins the states with its own.
fn judge(
    log: &AdminLog,
    seq: &TombSeq,
    states: &mut StateTable,
    request: &LentRequest<'_>,
    given: Option<State>,
) -> Result<Joined, NoMemory>
    requires carried { request.now.version ≤ length log.now }
    requires element { has_name (names_in seq.now) (element_of request.now) ≡ true }
    requires joinable { IsJoinable states.old request.now }
    requires given { IsGivenState given (names_in seq.now) log.now request.now }
    ensures state { IfOk result (λ joined. joined.state ≡ state_of (names_in seq.now) log.now request.now) }
    ensures shows { IfOk result (λ joined. joined.shows ≡ kept_shows states.new (element_of request.now)) }
    ensures states { IfOk result (λ joined. states.new ≡ with_request states.old request.now joined.state) }
    ensures same_states { OnErr result (states.new ≡ states.old) }
{
    let state = state_given(log, seq, request, given)?;
    let shows = states.add_lent(request, state)?;
    Ok(Joined { state, shows })
}

/// Which elements show, by their cells.
#[derive(Drop)]
pub(crate) struct ByCells<'a>(pub(crate) &'a StateTable);

impl Shows for ByCells<'_> {
    ghost use Rattle.request_state.specs.Table.{kept_shows};

    ghost is_shown = { λ by. kept_shows by.0.now };

    fn shows(&self, name: Name) -> bool {
        self.0.shows(name)
    }
}

/// Judges a request over the log, at the place that its element has, where its state isn't given, and puts it in:
/// its element, its state, and whether its element shows. What a want of memory cuts short is taken back.
pub(crate) fn join(
    log: &AdminLog,
    seq: &mut TombSeq,
    states: &mut StateTable,
    request: &LentRequest<'_>,
    given: Option<State>,
) -> Result<State, NoMemory>
    requires carried { request.now.version ≤ length log.now }
    requires placeable { IsPlaceable (names_in seq.old) request.now.id request.now.edit }
    requires joinable { IsJoinable states.old request.now }
    requires given { IsGivenState given (names_after (names_in seq.old) request.now.id request.now.edit) log.now request.now }
    ensures state { IfOk result (λ state. state ≡ state_of (names_after (names_in seq.old) request.now.id request.now.edit) log.now request.now) }
    ensures slots { OnOk result (seq.new ≡ with_mark (slots_after seq.old request.now.id request.now.edit) (element_of request.now) (kept_shows states.new (element_of request.now))) }
    ensures states { IfOk result (λ state. states.new ≡ with_request states.old request.now state) }
    ensures same_seq { OnErr result (seq.new ≡ seq.old) }
    ensures same_states { OnErr result (states.new ≡ states.old) }
{
    place(seq, request)?;
    match judge(log, seq, states, request, given) {
        Ok(joined) => {
            seq.mark(request.element(), joined.shows);
            Ok(joined.state)
        }
        Err(NoMemory) => {
            take_back(seq, request);
            Err(NoMemory)
        }
    }
}
