//! Which bytes are a whole message, and what becomes of a message that is sent. Nothing here runs: the
//! contracts are the examples.
ghost use Rattle.honest_examples.specs.Sends.{ACommitMakesNothing, AFailedLinkSendsNothing, AMessageIsSent, AMessageIsWhole, ASnapshotShowsWhatTheHolderHasSeen, ATransactionIsCommittedAlone, NothingIsCommittedBesideAHolder};

/// Of a START TRANSACTION only the commit of the open transaction may be done, but not while the link holds the
/// read lock. A ROLLBACK commits nothing.
pub fn a_transaction_is_committed_alone()
    ensures { ATransactionIsCommittedAlone }
{}

/// A COMMIT that is sent is handled, and its answer waits. Where sending fails it was handled or it wasn't.
pub fn a_message_is_sent()
    ensures { AMessageIsSent }
{}

/// On a link that has failed no message is sent, and nothing changes.
pub fn a_failed_link_sends_nothing()
    ensures { AFailedLinkSendsNothing }
{}

/// COMMIT is no object's text, and CREATE TABLE is.
pub fn a_commit_makes_nothing()
    ensures { ACommitMakesNothing }
{}

/// In a session a whole message is the packets of a payload from the id 0 on, and no byte is missing.
pub fn a_message_is_whole()
    ensures { AMessageIsWhole }
{}

/// A snapshot that is taken beside a holder of the read lock shows what the holder has seen.
pub fn a_snapshot_shows_what_the_holder_has_seen()
    ensures { ASnapshotShowsWhatTheHolderHasSeen }
{}

/// Beside a holder of the read lock an open transaction isn't committed, even where the link fails.
pub fn nothing_is_committed_beside_a_holder()
    ensures { NothingIsCommittedBesideAHolder }
{}
