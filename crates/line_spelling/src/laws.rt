//! Laws of lines. The function does nothing: it stands for its statement.
ghost use Rattle.std.specs.Prelude.{◌≡◌};
ghost use Rattle.line_spelling.specs.declared.line.TheConstants.{MAX_LINE};

/// The limit in numbers.
pub fn limits()
    ensures line { MAX_LINE ≡ 1024 }
{}
