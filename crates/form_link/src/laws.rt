//! What the clauses of a run say together. The function does nothing: it stands for its statement.
ghost use Rattle.form_link.specs.Laws.{ServeCompleteness, DialCompleteness};

use edit_io::Door;

/// A run over links during which nothing failed, neither the source nor the sink nor the door nor one of its links, was told
/// whole, or found no memory.
pub fn completeness<D: Door>()
    ensures serve { ServeCompleteness D.Line.got D.Line.sent D.Line.faults D.Line.closes }
    ensures dial { DialCompleteness D.Line.got D.Line.sent D.Line.faults D.Line.closes }
{}
