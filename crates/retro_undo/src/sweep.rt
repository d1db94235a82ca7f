//! The sweep.
ghost use Rattle.std.specs.Prelude.{◌≡◌, true};
ghost use Rattle.coop_request.specs.Request.{user_of};
ghost use Rattle.policy_book.specs.Lists.{has_number};
ghost use Rattle.retro_undo.specs.Undo.{are_reached};
ghost use Rattle.retro_undo.specs.Sweep.{every_request, MaySweep, IsSwept};

use crate::walk::{Whose, sweep_line};
use element_name::Places;
use policy_book::{Policy, Reach, UserRow};
use request_state::{StateTable, Undone};

// Judges each Tentative request of the listed users, and undoes those that are denied. How many those are.
fn sweep_users<P: Places>(
    users: UserRow,
    policy: &Policy,
    version: u32,
    states: &mut StateTable,
    places: &P,
) -> u32
    requires { MaySweep (P.names places.now) states.old }
    ensures { IsSwept (λ q. has_number users (user_of q)) (P.names places.now)
        policy.now version states.old states.new result }
{
    let mut count = 0;
    for i in 0..users.len() {
        if let Some(user) = users.at(i) {
            count += sweep_line(Whose::One(user), policy, version, states, places);
        }
    }
    count
}

/// Undoes each Tentative request that the policy of a new version denies, and says how many.
///
/// Such a request becomes Invalid at that version, by its authorization or none, and counts no more. No other
/// state changes, and no other request's counting. It takes no memory, and visits only the Tentative requests
/// of users within the reach: one verdict for each, and look-ups in the table, in time logarithmic in it.
pub fn sweep_reach<P: Places>(
    reach: Reach,
    policy: &Policy,
    version: u32,
    states: &mut StateTable,
    places: &P,
) -> Undone
    requires tables { MaySweep (P.names places.now) states.old }
    requires outside { are_reached reach (P.names places.now) policy.now states.old ≡ true }
    ensures { IsSwept every_request (P.names places.now) policy.now version states.old states.new result.count }
{
    match reach {
        Reach::Nobody => Undone { count: 0 },
        Reach::Users(users) => Undone {
            count: sweep_users(users, policy, version, states, places),
        },
        Reach::Everyone => Undone {
            count: sweep_line(Whose::All, policy, version, states, places),
        },
    }
}
