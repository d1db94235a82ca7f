//! Laws of lines. The functions do nothing: each stands for its statement.
ghost use Rattle.std.specs.Prelude.{◌≡◌};
ghost use Rattle.follow_talk.specs.Laws.{TextLaw};
ghost use Rattle.follow_talk.specs.declared.input_row.TheConstants.{MAX_ROW};

/// A text is read back from its spelling.
pub fn texts()
    ensures { TextLaw }
{}

/// The limit in numbers.
pub fn limits()
    ensures { MAX_ROW ≡ 65536 }
{}
