//! What a step may change.
ghost use Rattle.std.specs.Prelude.{◌≡◌, IfOk, IsTrue};
ghost use Rattle.std.specs.Option.{option_copied};
ghost use Rattle.element_name.specs.Cases.{when};
ghost use Rattle.element_name.specs.Name.{has_name};
ghost use Rattle.element_name.specs.Places.{place_in};
ghost use Rattle.coop_request.specs.History.{text_order};
ghost use Rattle.edit_message.specs.Formed.{is_message};
ghost use Rattle.peer_core.specs.Peer.{history, log};
ghost use Rattle.peer_core.specs.After.{peer_after};
ghost use Rattle.peer_tables.specs.Undoing.{AreOfTentative, HaveUndone};
ghost use Rattle.peer_core.specs.Changes.{next_operation, due_message, operation_of, is_received};

use super::Peer;
use edit_message::Message;
use element_name::{Name, NoMemory};
use peer_step::Step;
use policy_book::AdminOp;

impl Peer {
    /// The elements of the Tentative requests that a step may undo, in no order, and one of them more than once where
    /// several requests are of it: none for a step without a legal next entry, and else those of the users whom the
    /// entry's operation reaches.
    ///
    /// Takes a look-up for each, which the step takes too, and 16 bytes.
    pub fn undoable(&self, step: &Step) -> Result<Vec<Name>, NoMemory>
        ensures tentative { IfOk result (λ elements. AreOfTentative (history self.now) (log self.now) elements.items) }
        ensures undone { IfOk result (λ elements. HaveUndone (history self.now) (log self.now) (log (peer_after self.now step.now)) elements.items) }
    {
        self.journal.undoable(self.operation_of(step))
    }

    /// The place of an element in text order, among those that show and those that don't; none where the name is no
    /// element. Takes the time of a look-up among the elements, and no memory.
    pub fn place_of(&self, element: Name) -> Option<usize>
        ensures { result ≡ when (has_name (text_order (history self.now)) element) (place_in (text_order (history self.now)) element) }
    {
        self.journal.place_of(element)
    }

    /// The earliest held message that is due, which `Step::Settle` integrates or lets go. Looks up the woken ones, up to
    /// that one, and takes no memory.
    #[tactic(auto, using(peer_tables::proofs::JournalLemmas::find_position))]
    pub fn due(&self) -> Option<&Message>
        ensures { option_copied result ≡ due_message self.now }
    {
        self.held(self.first_due()?)
    }

    // The operation of the entry that a step may integrate, if it may undo anything.
    fn operation_of<'a>(&'a self, step: &'a Step) -> Option<&'a AdminOp>
        ensures operation { option_copied result ≡ operation_of self.now step.now }
        ensures formed { IsTrue (is_received step.now) }
    {
        match step {
            Step::Administer(op) => Some(op),
            Step::Receive(message) => self.next_operation(message),
            Step::Settle => self.next_operation(self.due()?),
            Step::Edit(_) => None,
            Step::ValidateNext => None,
            Step::Look { .. } => None,
            Step::Show => None,
        }
    }

    // The operation of a message that is the next entry.
    fn next_operation<'a>(&self, message: &'a Message) -> Option<&'a AdminOp>
        ensures operation { option_copied result ≡ next_operation self.now message.now }
        ensures formed { IsTrue (is_message message.now) }
    {
        // a message that has a key is well formed
        let _ = message.key();
        match message {
            Message::Coop(_) => None,
            Message::Admin(entry) => {
                if entry.version() == self.journal.front() + 1 {
                    Some(entry.op())
                } else {
                    None
                }
            }
        }
    }
}
