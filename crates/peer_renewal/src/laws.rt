//! Laws of renewals. The functions do nothing: they stand for their statements.
ghost use Rattle.peer_renewal.specs.Laws.{SameCoverageLaw, SameRightsLaw, NeverUndoneLaw, FreshRenewal};

/// Where no object is of an author's elements, an element of a renewed text is covered by the objects that covered the
/// old one which showed the same byte, and the same users may do the same to it.
pub fn same_rights()
    ensures coverage { SameCoverageLaw }
    ensures rights { SameRightsLaw }
    ensures sample { FreshRenewal }
{}

/// No request of a renewal is ever undone, whatever entries come.
pub fn never_undone()
    ensures { NeverUndoneLaw }
{}
