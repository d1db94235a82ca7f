//! Laws of what happens at followers. They hold of each follower at every moment, since what has happened at it is a past.
//! Each has a sample, a small past on which its premises hold.
ghost use Rattle.follow_core.specs.Laws.{SavedBeforePassedLaw, SavedFirstLaw, ProgramToldLaw, OneMessageLaw, PassedInOrderLaw, AllPassedLaw, BackLaw, SameAnswersLaw, TakenOnceLaw};
ghost use Rattle.follow_core.specs.Samples.{SavedBeforePassedSample, OneMessageSample, PassedInOrderSample, BackSample, TakenOnceSample, ReplaySample};

/// Each message that was passed was saved by then, and what is saved is a beginning of the journal. When the program is
/// told the answers of its steps, all that they left is saved.
pub fn saved_before_sent()
    ensures passed { SavedBeforePassedLaw }
    ensures told { ProgramToldLaw }
    ensures beginning { SavedFirstLaw }
    ensures sample { SavedBeforePassedSample }
{}

/// Over crashes and restarts no two messages are passed under one name or one version.
pub fn no_fork()
    ensures law { OneMessageLaw }
    ensures sample { OneMessageSample }
{}

/// What was passed on the link that stands is the journal from the place on at which it began: each message once, in
/// order, and none is skipped. Where there is nothing more to pass it is all that is saved.
pub fn in_order()
    ensures order { PassedInOrderLaw }
    ensures whole { AllPassedLaw }
    ensures sample { PassedInOrderSample }
{}

/// A link begins where the follower began, or behind a request of the device's own that came back from the host. So with
/// the law of the order each request that is saved and didn't come back is sent again on each new link.
pub fn nothing_left_out()
    ensures law { BackLaw }
    ensures sample { BackSample }
{}

/// A message that the peer has already is answered so, and changes nothing.
pub fn taken_once()
    ensures law { TakenOnceLaw }
    ensures sample { TakenOnceSample }
{}

/// The follower's peer is the one that it began with, after all steps that were made, in order: so each step is answered
/// as by a peer that is kept and makes these steps alone.
pub fn same_answers()
    ensures law { SameAnswersLaw }
    ensures sample { ReplaySample }
{}
