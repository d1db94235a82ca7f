//! The walk along Tentative requests.
ghost use Rattle.std.specs.Prelude.{◌≡◌, None, IsTrue};
ghost use Rattle.element_name.specs.Name.{start};
ghost use Rattle.request_state.specs.Table.{kept_of, is_in_order};
ghost use Rattle.retro_undo.specs.Part.{is_in, next_of};
ghost use Rattle.retro_undo.specs.Sweep.{MaySweep, IsSwept};

use crate::judge::settle;
use auth_match::request_verdict_lent;
use coop_request::LentRequest;
use element_name::{Name, Places};
use policy_book::Policy;
use request_state::StateTable;

/// Whose Tentative requests a walk visits, in ascending order of name.
#[derive(Clone, Copy, Debug, PartialEq, Eq)]
pub enum Whose {
    /// Those of all users.
    All,
    /// Those of one user.
    One(u16),
}

/// The next Tentative request of theirs above a name. Takes time logarithmic in the table.
pub(crate) fn next_tentative(
    states: &StateTable,
    whose: Whose,
    above: Name,
) -> Option<LentRequest<'_>>
    ensures found { result ≡ next_of states.now whose above }
    ensures in_order { IsTrue (is_in_order states.now) }
{
    match whose {
        Whose::All => states.next_tentative_lent(above),
        Whose::One(user) => states.next_tentative_of_lent(user, above),
    }
}

/// The start, from which a walk begins. It is no request's name, since a request's stamp is greater than that of what
/// it speaks of.
pub fn below_all(states: &StateTable) -> Name
    ensures value { result ≡ start }
    ensures absent { kept_of states.now start ≡ None }
{
    match states.lent_request(Name::start()) {
        Some(request) => {
            // What it speaks of would have a stamp below 0.
            let _ = request.edit();
            unreachable!()
        }
        None => Name::start(),
    }
}

/// Judges each Tentative request of theirs, and undoes those that are denied. How many those are.
pub(crate) fn sweep_line<P: Places>(
    whose: Whose,
    policy: &Policy,
    version: u32,
    states: &mut StateTable,
    places: &P,
) -> u32
    requires { MaySweep (P.names places.now) states.old }
    ensures { IsSwept (is_in whose) (P.names places.now) policy.now version states.old states.new result }
{
    let mut count = 0;
    let mut above = below_all(states);
    while let Some(request) = next_tentative(states, whose, above) {
        above = request.id();
        let verdict = request_verdict_lent(policy, &request, places);
        count += u32::from(settle(above, verdict, version, states));
    }
    count
}
