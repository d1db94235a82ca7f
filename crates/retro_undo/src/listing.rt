//! The Tentative requests within a reach, listed.
ghost use Rattle.std.specs.Prelude.{◌≡◌, ◌++◌, IfOk, OnOk};
ghost use Rattle.element_name.specs.Name.{start};
ghost use Rattle.retro_undo.specs.Listed.{taken_of, taken_above, taken_of_users, taken_within};

use crate::walk::{Whose, next_tentative};
use coop_request::LentRequest;
use element_name::{Name, NoMemory};
use policy_book::{Reach, UserRow};
use request_state::StateTable;
use std::alloc::Global;

/// What is listed of a request.
#[derive(Clone, Copy, Debug, PartialEq, Eq)]
pub enum Taken {
    /// Its name.
    Id,
    /// The name of the element on which it is judged.
    Element,
}

impl Taken {
    fn of(self, request: &LentRequest<'_>) -> Name
        ensures { result ≡ taken_of self request.now }
    {
        match self {
            Taken::Id => request.id(),
            Taken::Element => request.element(),
        }
    }
}

// Puts what is taken of their Tentative requests at the end of the list, in ascending order of the requests' names.
fn list_line(
    taken: Taken,
    whose: Whose,
    states: &StateTable,
    list: &mut Vec<Name>,
) -> Result<(), NoMemory>
    ensures { OnOk result (list.new.items ≡ list.old.items ++ taken_above (taken_of taken) whose start states.now) }
{
    let mut above = Name::start();
    while let Some(request) = next_tentative(states, whose, above) {
        list.push(taken.of(&request))?;
        above = request.id();
    }
    Ok(())
}

// The same, of each of the users.
fn list_users(
    taken: Taken,
    users: &UserRow,
    states: &StateTable,
    list: &mut Vec<Name>,
) -> Result<(), NoMemory>
    ensures { OnOk result (list.new.items ≡ list.old.items ++ taken_of_users (taken_of taken) users.now states.now) }
{
    for i in 0..users.len() {
        if let Some(user) = users.at(i) {
            list_line(taken, Whose::One(user), states, list)?;
        }
    }
    Ok(())
}

/// What is taken of the Tentative requests within a reach: one look-up for each, and 16 bytes. Visits no others.
pub fn list_reach(
    alloc: Global,
    taken: Taken,
    reach: &Reach,
    states: &StateTable,
) -> Result<Vec<Name>, NoMemory>
    ensures { IfOk result (λ list. list.items ≡ taken_within (taken_of taken) reach.now states.now) }
{
    let mut list = Vec::new(alloc);
    match reach {
        Reach::Nobody => {}
        Reach::Users(users) => list_users(taken, users, states, &mut list)?,
        Reach::Everyone => list_line(taken, Whose::All, states, &mut list)?,
    }
    Ok(list)
}
