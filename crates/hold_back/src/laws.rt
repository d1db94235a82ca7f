//! Laws of holds.
ghost use Rattle.std.specs.Prelude.{◌≡◌, ℕ, List};
ghost use Rattle.hold_back.specs.Hold.{messages_of, woken_by, woken_at, waiting_at};
ghost use Rattle.hold_back.specs.declared.held.Held.{Held};
ghost use Rattle.hold_back.specs.declared.need.Need.{Need};
ghost use Rattle.hold_back.specs.declared.hold.TheConstants.{MAX_HELD};

/// The messages and their order stay where some are woken, or one is, and where one waits again.
pub fn kept_messages()
    ensures woken { (need : Need) (held : List Held) → messages_of (woken_by need held) ≡ messages_of held }
    ensures one { (i : ℕ) (held : List Held) → messages_of (woken_at i held) ≡ messages_of held }
    ensures waiting { (i : ℕ) (need : Need) (held : List Held) → messages_of (waiting_at i need held) ≡ messages_of held }
{}

/// The limit in numbers.
pub fn limits()
    ensures { MAX_HELD ≡ 4096 }
{}
