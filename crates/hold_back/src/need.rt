//! What a message waits for.
ghost use Rattle.std.specs.Prelude.{◌≡◌};
ghost use Rattle.hold_back.specs.Need.{need_for};

use edit_message::{Message, Missing};
use element_name::Name;

/// What a held message waits for.
#[derive(Clone, Copy, Debug, PartialEq, Eq)]
pub enum Need {
    /// That the element of this name is there.
    Element(Name),
    /// That the log has at least this many entries.
    Front(u32),
}

impl Need {
    /// What a message waits for that misses something: the element, or the front that lets it in.
    pub fn of(message: &Message, missing: Missing) -> Need
        ensures { result ≡ need_for message.now missing }
    {
        match (missing, message) {
            (Missing::Element(name), _) => Need::Element(name),
            (Missing::Version(_), Message::Coop(request)) => Need::Front(request.version()),
            (Missing::Version(_), Message::Admin(entry)) => Need::Front(entry.version() - 1),
        }
    }
}
