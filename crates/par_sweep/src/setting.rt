//! A verdict that was taken before is carried out.
ghost use Rattle.std.specs.Prelude.{◌≡◌, ◌&&◌, IsTrue};
ghost use Rattle.request_state.specs.Table.{is_in_order};
ghost use Rattle.retro_undo.specs.Undo.{is_denied};
ghost use Rattle.par_sweep.specs.Judged.{is_tentative_named, with_verdict};

use crate::judging::Judgement;
use auth_match::Verdict;
use element_name::Name;
use request_state::{State, StateTable};

// Whether the request of a name is Tentative.
fn is_tentative(states: &StateTable, id: Name) -> bool
    ensures { result ≡ is_tentative_named states.now id }
{
    match states.state(id) {
        Some(State::Tentative) => true,
        Some(State::Valid { .. }) => false,
        Some(State::Invalid { .. }) => false,
        None => false,
    }
}

/// Undoes the judged request if it was denied and is Tentative. Whether it did.
///
/// A reach may name a user twice, and the user's requests are then listed twice: the second time they are Invalid.
pub(crate) fn carry_out(judged: &Judgement, version: u32, states: &mut StateTable) -> bool
    requires { IsTrue (is_in_order states.old) }
    ensures undone { result ≡ (is_tentative_named states.old judged.now.id && is_denied judged.now.verdict) }
    ensures states { states.new ≡ with_verdict version judged.now states.old }
{
    let Verdict::Denied { by } = judged.verdict else {
        return false;
    };
    if is_tentative(states, judged.id) {
        states.set(judged.id, State::Invalid { at: version, by });
        return true;
    }
    false
}
