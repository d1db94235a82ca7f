//! What the clauses of a run say together. The functions do nothing: each stands for its statement.
ghost use Rattle.std.specs.Prelude.{◌≡◌};
ghost use Rattle.line_engine.specs.Laws.{Completeness};
ghost use Rattle.line_engine.specs.declared.limits.TheConstants.{MAX_INPUT};

/// A run during which neither the source nor the sink failed wrote its output whole, or found no memory.
pub fn completeness()
    ensures { Completeness }
{}

/// The limit in numbers.
pub fn limits()
    ensures { MAX_INPUT ≡ 67108864 }
{}
