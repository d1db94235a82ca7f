//! Laws of feeding. The functions do nothing: each stands for its statement.
ghost use Rattle.form_feed.specs.Laws.{QuietLaw};

/// The settle steps after a message go on until nothing that is held is due.
pub fn settled_is_quiet()
    ensures { QuietLaw }
{}
