//! Laws of words and steps: what is spelled is read back, and what a step line says is well formed.
ghost use Rattle.std.specs.Prelude.{◌≡◌, ◌≤◌, ◌<◌, ◌^◌, ℕ, List, Some, IsTrue, decimal};
ghost use Rattle.element_name.specs.Name.{Name};
ghost use Rattle.policy_book.specs.Lists.{is_name};
ghost use Rattle.coop_request.specs.Piece.{is_piece};
ghost use Rattle.line_spelling.specs.Values.{piece_text, name_text};
ghost use Rattle.line_read.specs.Numbers.{read_number, read_name};
ghost use Rattle.line_read.specs.Pieces.{read_piece};
ghost use Rattle.line_read.specs.Laws.{FormedStepLaw};
ghost use Rattle.line_read.specs.declared.numbers.TheConstants.{MAX_SHORT, MAX_WIDE};

/// A piece is read back from its spelling.
pub fn pieces()
    ensures { (piece : List ℕ) → IsTrue (is_piece piece) → read_piece (piece_text piece) ≡ Some piece }
{}

/// A number in its range is read back from its digits.
pub fn numbers()
    ensures { (limit n : ℕ) → n ≤ limit → n < 2 ^ 64 → read_number limit (decimal n) ≡ Some n }
{}

/// A name in its ranges is read back from its spelling.
pub fn names()
    ensures { (n : Name) → IsTrue (is_name n) → read_name (name_text n) ≡ Some n }
{}

/// What a step line says is well formed: each piece is one, and each operation and message is in its ranges.
pub fn formed()
    ensures { FormedStepLaw }
{}

/// The limits in numbers.
pub fn limits()
    ensures short { MAX_SHORT ≡ 65535 }
    ensures wide { MAX_WIDE ≡ 4294967295 }
{}
