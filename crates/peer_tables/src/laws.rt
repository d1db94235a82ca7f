//! Laws of journals.
ghost use Rattle.peer_tables.specs.Laws.{HistoryLaw, LogLaw, SpanLaw, VersionLaw, StableBefore, StableVerdictAt, StableState, StableUnderEntry, SetLaw};
ghost use Rattle.peer_tables.specs.TreePlaces.{TextPlaceLaw, SpanCoverLaw};

/// The requests of a journal are a history, its entries are a log, each end of a span is an element, and each
/// request carries a version of the log.
pub fn parts()
    ensures history { HistoryLaw }
    ensures log { LogLaw }
    ensures spans { SpanLaw }
    ensures versions { VersionLaw }
{}

/// One more message changes no order between old elements, and no verdict on an old request at an old version.
/// A request changes no old state, and an entry only Tentative ones.
pub fn stable()
    ensures order { StableBefore }
    ensures verdict { StableVerdictAt }
    ensures request { StableState }
    ensures entry { StableUnderEntry }
{}

/// Journals with the same requests and the same log give the same order, states, cells and text.
pub fn same_sets()
    ensures { SetLaw }
{}

/// Of two elements of a history the one has the smaller place in the text order that the tree has before the other. A
/// span covers an element where both its ends are elements, the element isn't before the first, and the last isn't
/// before the element. So what coverage says needs no text order, but the tree alone.
pub fn tree_places()
    ensures places { TextPlaceLaw }
    ensures spans { SpanCoverLaw }
{
    tomb_seq::laws::places_follow_tree();
}
