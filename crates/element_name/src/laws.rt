//! Laws of names.
ghost use Rattle.std.specs.Prelude.{◌≡◌};
ghost use Rattle.element_name.specs.Laws.{OrderLaw};
ghost use Rattle.element_name.specs.declared.limits.TheConstants.{MAX_STAMP, MAX_VERSION};

use crate::name::Name;

/// `cmp`, `<` and the other comparisons order names by stamp, and then by site.
pub fn names_in_order()
    ensures { OrderLaw (⟦<Name as Ord>⟧.cmp) (⟦<Name as PartialOrd>⟧.partial_cmp) }
{}

/// The limits in numbers.
pub fn limits()
    ensures stamp { MAX_STAMP ≡ 281474976710655 }
    ensures version { MAX_VERSION ≡ 16383 }
{}
