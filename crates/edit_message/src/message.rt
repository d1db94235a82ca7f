//! Messages.
ghost use Rattle.std.specs.Prelude.{◌≡◌, ◌↔◌, IfOk, IsTrue};
ghost use Rattle.edit_message.specs.Message.{key_of};
ghost use Rattle.edit_message.specs.Formed.{is_message, is_request, is_edit};
ghost use Rattle.edit_message.specs.Same.{message_eq};
ghost use Rattle.policy_book.specs.Lists.{is_name};
ghost use Rattle.coop_request.specs.LentEdit.{edit_lent};

use coop_request::{LentEdit, LentRequest, Request};
use element_name::{Name, NoMemory};
use policy_book::Entry;

/// A request of an editor, or an entry of the administrator's log.
#[derive(Drop)]
pub enum Message {
    Coop(Request),
    Admin(Entry),
}

/// By what a message is known. Two different messages of one key are in conflict.
#[derive(Clone, Copy, Debug, PartialEq, Eq, PartialOrd, Ord, Hash)]
pub enum Key {
    /// The name of the request.
    Coop(Name),
    /// The policy version that the entry makes.
    Admin(u32),
}

/// What a message waits for.
#[derive(Clone, Copy, Debug, PartialEq, Eq)]
pub enum Missing {
    /// That the element of this name is there.
    Element(Name),
    /// That the policy has this version.
    Version(u32),
}

impl Key {
    /// That of a request.
    pub fn of_request(request: &LentRequest<'_>) -> Key
        ensures value { result ≡ key_of (Message.Coop request.now) }
        ensures message { IsTrue (is_message (Message.Coop request.now)) }
    {
        request_in_range(request);
        Key::Coop(request.id())
    }
}

impl Message {
    /// Its key.
    pub fn key(&self) -> Key
        ensures value { result ≡ key_of self.now }
        ensures message { IsTrue (is_message self.now) }
    {
        match self {
            Message::Coop(request) => Key::of_request(&request.lent()),
            Message::Admin(entry) => Key::Admin(entry.version()),
        }
    }

    /// Whether the other equals this one.
    pub fn same(&self, other: &Message) -> bool
        ensures equality { IsTrue result ↔ (self.now ≡ other.now) }
        ensures test { result ≡ message_eq self.now other.now }
    {
        match (self, other) {
            (Message::Coop(a), Message::Coop(b)) => is_same_request(*a, *b),
            (Message::Admin(a), Message::Admin(b)) => a.same(b),
            (_, _) => false,
        }
    }

    /// A message that equals this one. An entry's lists have the same allocators.
    pub fn copied(&self) -> Result<Message, NoMemory>
        ensures { IfOk result (λ c. c ≡ self.now) }
    {
        let copy = match self {
            Message::Coop(request) => Message::Coop(*request),
            Message::Admin(entry) => Message::Admin(entry.copied()?),
        };
        Ok(copy)
    }
}

fn is_same_request(a: Request, b: Request) -> bool
    ensures { IsTrue result ↔ (a ≡ b) }
{
    a.id() == b.id() && a.version() == b.version() && a.edit() == b.edit()
}

// Each of these three looks at the parts of a value, whose types keep them in their ranges, and does nothing else.
fn request_in_range(request: &LentRequest<'_>)
    ensures { IsTrue (is_request request.now) }
{
    name_in_range(request.id());
    edit_in_range(request.edit());
}

fn edit_in_range(edit: &LentEdit<'_>)
    ensures { IsTrue (is_edit (edit_lent edit.now)) }
{
    match edit {
        LentEdit::Insert { after, letter } => {
            name_in_range(*after);
            let _ = letter.bytes();
        }
        LentEdit::Delete { target } => name_in_range(*target),
        LentEdit::Update { target, letter } => {
            name_in_range(*target);
            let _ = letter.bytes();
        }
    }
}

fn name_in_range(name: Name)
    ensures { IsTrue (is_name name) }
{
    let _ = name.stamp();
}
