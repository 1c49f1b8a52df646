//! What sending and receiving do to a link. Nothing here runs: the contracts are the examples.
ghost use Rattle.honest_examples.specs.Links.{AFailureLosesNothingByHalves, ALinkHasSeenItsOwn, ALinkHoldsItsOwn, ASnapshotShowsAFront, BytesAreReceived, TheAnswerWaits, WideKeysAreToldUntilTheyArent};

/// Once a message is sent, its answer waits after what waited before.
pub fn the_answer_waits()
    ensures { TheAnswerWaits }
{}

/// A link may stop telling at a message that each wide key stands once, and doesn't tell it again.
pub fn wide_keys_are_told_until_they_arent()
    ensures { WideKeysAreToldUntilTheyArent }
{}

/// Where a link fails at a COMMIT, the open transaction was committed, or is still open.
pub fn a_failure_loses_nothing_by_halves()
    ensures { AFailureLosesNothingByHalves }
{}

/// What waits is received in its order, at least one byte of it, or the link fails.
pub fn bytes_are_received()
    ensures { BytesAreReceived }
{}

/// What the only link to a quiet site has seen past the site's history is its own.
pub fn a_link_has_seen_its_own()
    ensures { ALinkHasSeenItsOwn }
{}

/// What a link's snapshot shows is a front of what the link has seen, and no history that goes on past it.
/// So is the history at each grant of the read lock.
pub fn a_snapshot_shows_a_front()
    ensures { ASnapshotShowsAFront }
{}

/// What a link has committed is among what it has seen, also where others write.
pub fn a_link_holds_its_own()
    ensures { ALinkHoldsItsOwn }
{}
