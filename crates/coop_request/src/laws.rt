//! Laws of histories.
ghost use Rattle.std.specs.Prelude.{◌≡◌};
ghost use Rattle.std.specs.Prelude.{List};
ghost use Rattle.element_name.specs.Tree.{IsTree};
ghost use Rattle.coop_request.specs.Request.{Request};
ghost use Rattle.coop_request.specs.History.{IsHistory, placed_of};
ghost use Rattle.coop_request.specs.declared.request.TheConstants.{MAX_REQUESTS};
ghost use Rattle.coop_request.specs.declared.piece.TheConstants.{MAX_PIECE};

/// The elements that a history's inserts make are a tree: each is new, its anchor is the start or an
/// earlier element, and its stamp is the greater. So the laws of the text order speak of every history.
pub fn history_is_tree()
    ensures { (requests : List Request) → IsHistory requests → IsTree (placed_of requests) }
{}

/// The limits in numbers.
pub fn limits()
    ensures requests { MAX_REQUESTS ≡ 131072 }
    ensures piece { MAX_PIECE ≡ 255 }
{}
