//! Laws of messages.
ghost use Rattle.std.specs.Prelude.{◌≡◌, ◌↔◌, true, IsTrue};
ghost use Rattle.edit_message.specs.Message.{key_of, key_eq};
ghost use Rattle.edit_message.specs.Same.{message_eq};
ghost use Rattle.edit_message.specs.declared.message.Key.{Key};
ghost use Rattle.edit_message.specs.declared.message.Message.{Message};

/// Two keys are one exactly where their comparison says so.
pub fn one_key()
    ensures { (a b : Key) → (key_eq a b ≡ true) ↔ (a ≡ b) }
{}

/// Two messages are equal exactly where their comparison says so.
pub fn same_is_equality()
    ensures { (a b : Message) → (IsTrue (message_eq a b) ↔ (a ≡ b)) }
{}
