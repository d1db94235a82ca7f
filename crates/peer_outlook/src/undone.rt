//! The requests that are Tentative at one peer, and Invalid at another.
ghost use Rattle.std.specs.Prelude.{◌≡◌, ◌++◌, IfOk, OnOk};
ghost use Rattle.std.specs.Option.{option_to_list};
ghost use Rattle.request_state.specs.State.{is_tentative, is_invalid};
ghost use Rattle.peer_outlook.specs.Outlook.{has_state, is_undone_name, names_between, undone_by_key};

use edit_message::Key;
use element_name::{Name, NoMemory};
use peer_core::Peer;
use request_state::State;
use std::alloc::Global;

// Whether the request of a name is Tentative.
fn is_tentative_at(peer: &Peer, id: Name) -> bool
    ensures { result ≡ has_state is_tentative peer.now id }
{
    match peer.state_of(id) {
        Some(State::Tentative) => true,
        Some(State::Valid { .. }) => false,
        Some(State::Invalid { .. }) => false,
        None => false,
    }
}

// Whether the request of a name is Invalid.
fn is_invalid_at(peer: &Peer, id: Name) -> bool
    ensures { result ≡ has_state is_invalid peer.now id }
{
    match peer.state_of(id) {
        Some(State::Tentative) => false,
        Some(State::Valid { .. }) => false,
        Some(State::Invalid { .. }) => true,
        None => false,
    }
}

// Whether the request of a name is Tentative at one peer, and Invalid at another.
fn is_undone(before: &Peer, after: &Peer, id: Name) -> bool
    ensures { result ≡ is_undone_name before.now after.now id }
{
    is_tentative_at(before, id) && is_invalid_at(after, id)
}

// The name of the request of a key, if it is Tentative at one peer, and Invalid at another.
fn undone_by_key(before: &Peer, after: &Peer, key: Key) -> Option<Name>
    ensures { result ≡ undone_by_key before.now after.now key }
{
    match key {
        Key::Coop(id) => {
            if is_undone(before, after, id) {
                Some(id)
            } else {
                None
            }
        }
        Key::Admin(_) => None,
    }
}

// Puts a name last, if there is one.
fn push_found(names: &mut Vec<Name>, found: Option<Name>) -> Result<(), NoMemory>
    ensures { OnOk result (names.new.items ≡ names.old.items ++ option_to_list found) }
{
    if let Some(id) = found {
        names.push(id)?;
    }
    Ok(())
}

/// The names of the requests that are Tentative at one peer, and Invalid at another. Takes a look-up at each of the two for
/// every message of the journal.
pub(crate) fn undone_names(
    alloc: Global,
    before: &Peer,
    after: &Peer,
) -> Result<Vec<Name>, NoMemory>
    ensures { IfOk result (λ names. names.items ≡ names_between before.now after.now) }
{
    let mut names = Vec::new(alloc);
    for i in 0..before.journal_len() {
        let Some(item) = before.journal(i) else {
            unreachable!()
        };
        push_found(&mut names, undone_by_key(before, after, item.key()))?;
    }
    Ok(names)
}
