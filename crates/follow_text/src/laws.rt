//! Laws of edits. The function does nothing: it stands for its statement.
ghost use Rattle.follow_text.specs.Edits.{ReplacedLaw};

/// The deletes and inserts of a replacement, made one after another, put its pieces in place of those that it takes out.
/// So with the clause of [`Shown::replacement`](crate::Shown::replacement) the text after them is the text before, with the
/// range replaced.
pub fn replaced_by_edits()
    ensures { ReplacedLaw }
{}
