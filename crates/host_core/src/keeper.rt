//! What keeps the host's peer.
ghost use Rattle.std.specs.Prelude.{◌≡◌, ℕ, List, OnOk, OnErr, IfOk, IfErr};
ghost use Rattle.edit_message.specs.declared.message.Message.{Message};
ghost use Rattle.peer_core.specs.Answers.{answer_of};
ghost use Rattle.peer_core.specs.After.{peer_after};

use peer_core::Peer;
use peer_step::{Answer, Step};

/// Why a keeper gave up.
#[derive(Clone, Copy, Debug, PartialEq, Eq)]
pub enum KeepFail {
    /// It has no room for the step.
    Full,
    /// Memory was wanting.
    NoMemory,
    /// The disk failed, now or before.
    Failed,
}

/// A peer that is saved.
pub trait Keeper: Drop {
    ghost use Rattle.peer_core.specs.Peer as spec;

    // Its peer.
    ghost peer: { Self → spec.Peer };

    // Each crash from now on leaves a peer whose journal begins with these messages.
    ghost keeps: { Self → List Message → Type 0 };

    /// The peer, after all steps that were made.
    fn peer(&self) -> &Peer
        ensures { result.now ≡ peer self.now };

    /// Makes a step and answers it. It need not be saved yet. Where it gives up the step isn't made.
    fn make(&mut self, step: Step) -> Result<Answer, KeepFail>
        ensures answer { IfOk result (λ answer. answer ≡ answer_of (peer self.old) step) }
        ensures after { OnOk result (peer self.new ≡ peer_after (peer self.old) step) }
        ensures unchanged { OnErr result (peer self.new ≡ peer self.old) }
        ensures kept { (J : List Message) → keeps self.old J → keeps self.new J };

    /// Saves all steps that were made. Memory and room were found when they were, so it gives up for the disk alone.
    fn save(&mut self) -> Result<(), KeepFail>
        ensures peer { peer self.new ≡ peer self.old }
        ensures saved { OnOk result (keeps self.new (peer self.new).journal) }
        ensures failed { IfErr result (λ fail. fail ≡ KeepFail.Failed) }
        ensures kept { (J : List Message) → keeps self.old J → keeps self.new J };
}
