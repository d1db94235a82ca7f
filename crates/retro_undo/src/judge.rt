//! One request that was judged on the new policy.
ghost use Rattle.std.specs.Prelude.{◌≡◌, Some, IsTrue};
ghost use Rattle.request_state.specs.declared.state.State.TheVariants.{Tentative};
ghost use Rattle.request_state.specs.Table.{kept_state, is_in_order, with_state};
ghost use Rattle.retro_undo.specs.Undo.{state_after_verdict, is_denied};

use auth_match::Verdict;
use element_name::Name;
use request_state::{State, StateTable};

/// Undoes the Tentative request of a name by the verdict on it, if that denies it. Whether it did.
pub(crate) fn settle(id: Name, verdict: Verdict, version: u32, states: &mut StateTable) -> bool
    requires order { IsTrue (is_in_order states.old) }
    requires tentative { kept_state states.old id ≡ Some Tentative }
    ensures undone { result ≡ is_denied verdict }
    ensures states { states.new ≡ with_state states.old id (state_after_verdict Tentative version verdict) }
{
    match verdict {
        Verdict::Granted => false,
        Verdict::Denied { by } => {
            states.set(id, State::Invalid { at: version, by });
            true
        }
    }
}
