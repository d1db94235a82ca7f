//! Laws of stores.
ghost use Rattle.std.specs.Prelude.{◌≡◌, ◌↔◌, ◌≤◌, ◌++◌, ℕ, List, true, false, length};
ghost use Rattle.peer_step.specs.declared.step.Step.{Step};
ghost use Rattle.peer_core.specs.Peer.{Peer};
ghost use Rattle.peer_core.specs.After.{peer_after};
ghost use Rattle.peer_store.specs.Body.{IsBody};
ghost use Rattle.peer_store.specs.Steps.{replay_of, changes, is_look};
ghost use Rattle.peer_store.specs.Store.{StandsFor, HasMessages, IsNoStoreFrom};

use crate::limits::MAX_GATE;

/// No bytes are the bodies of two steps.
pub fn one_step()
    ensures { (version : ℕ) (bytes : List ℕ) (first second : Step) → IsBody version first bytes → IsBody version second bytes → first ≡ second }
{}

/// A body has at most 281 bytes.
pub fn short_bodies()
    ensures { (version : ℕ) (step : Step) (bytes : List ℕ) → IsBody version step bytes → length bytes ≤ 281 }
{}

/// A step changes a count of a peer's messages exactly where it changes the peer, and a look changes nothing.
pub fn changing_steps()
    ensures counts { (p : Peer) (step : Step) → (changes p step ≡ false) ↔ (peer_after p step ≡ p) }
    ensures looks { (p : Peer) (step : Step) → is_look step ≡ true → changes p step ≡ false }
{}

/// A store stands for one list of steps.
pub fn one_list()
    ensures { (site : ℕ) (file : List ℕ) (first second : List Step) → StandsFor site first file → StandsFor site second file → first ≡ second }
{
    peer_disk::laws::one_reading();
    one_step();
}

/// A file that is no store from some offset on stands for no steps.
pub fn no_store()
    ensures { (site offset : ℕ) (file : List ℕ) (steps : List Step) → IsNoStoreFrom site offset file → StandsFor site steps file → ⊥ }
{
    peer_disk::laws::broken_has_none();
    one_step();
}

/// A file that stands for steps, and then for more, has all messages that the peer had after the first. So what was
/// saved once is there for good.
pub fn messages_stay()
    ensures { (site : ℕ) (steps more : List Step) (file : List ℕ) → StandsFor site (steps ++ more) file → HasMessages site (replay_of site steps).journal file }
{}

/// The place behind which no step is put, by its number.
pub fn limits()
    ensures { MAX_GATE ≡ 1073741000 }
{}
