//! How a call ended.
ghost use Rattle.std.specs.Prelude.{◌≡◌};
ghost use Rattle.editor_lib.specs.Code.{number};

/// How a call ended.
#[derive(Clone, Copy, Debug, PartialEq, Eq)]
pub enum Code {
    /// What was asked for was done, and the desk has the answer.
    Done,
    /// The bytes aren't in the grammar. Nothing was changed.
    Bad,
    /// Memory was wanting. Nothing was changed.
    NoMemory,
    /// The step was made, and memory was wanting to tell of it. The answer and the frame are empty.
    Untold,
}

/// The number of a code.
pub fn number(code: Code) -> u32
    ensures { result ≡ number code }
{
    match code {
        Code::Done => 0,
        Code::Bad => 1,
        Code::NoMemory => 2,
        Code::Untold => 3,
    }
}
