//! What follows from the definitions. Nothing here runs: the contracts are the laws.
ghost use Rattle.honest_server.specs.Laws.{AFrozenLinkSeesNothingNew, AGuardedLinkSeesOneCatalogue, ASoleLinkSeesItsOwn, ASnapshotBesideShowsTheHolders, AStatementBesideSeesTheHolders, RowsBeforeAnErrAreOfAnAnswer, APlainSnapshotMayShowMore, ThePositionMayMoveAfterTheLock, AnInsertAloneIsCommitted, AnInsertWaitsForItsCommit, ACommitIsWhole, AGrantCanStandFirst, IntegersAreRead, ANewLinkHoldsNothing};

/// A link that holds the read lock sees nothing new at a plain statement, and commits nothing.
pub fn a_frozen_link_sees_nothing_new()
    ensures { AFrozenLinkSeesNothingNew }
{}

/// While a link holds the backup lock, what it comes to see makes and drops no object.
pub fn a_guarded_link_sees_one_catalogue()
    ensures { AGuardedLinkSeesOneCatalogue }
{}

/// Where nobody else writes, a sole link sees its own transactions alone.
pub fn a_sole_link_sees_its_own()
    ensures { ASoleLinkSeesItsOwn }
{}

/// A snapshot that is taken beside a holder of the read lock shows what the holder has seen.
pub fn a_snapshot_beside_shows_the_holders()
    ensures { ASnapshotBesideShowsTheHolders }
{}

/// What is answered beside a holder of the read lock, but for an ERR, leaves just what the holder has
/// seen.
pub fn a_statement_beside_sees_the_holders()
    ensures { AStatementBesideSeesTheHolders }
{}

/// Rows that came before an ERR are the first of an answer to the query.
pub fn rows_before_an_err_are_of_an_answer()
    ensures { RowsBeforeAnErrAreOfAnAnswer }
{}

/// A snapshot that is taken by a plain statement may show something else, though both links had seen the
/// same.
pub fn a_plain_snapshot_may_show_more()
    ensures { APlainSnapshotMayShowMore }
{}

/// Once the read lock is given back, the position may be another than at its grant.
pub fn the_position_may_move_after_the_lock()
    ensures { ThePositionMayMoveAfterTheLock }
{}

/// Rows that are put outside a transaction are a transaction of their own.
pub fn an_insert_alone_is_committed()
    ensures { AnInsertAloneIsCommitted }
{}

/// Rows that are put inside a transaction wait for its end.
pub fn an_insert_waits_for_its_commit()
    ensures { AnInsertWaitsForItsCommit }
{}

/// A commit ends the history by all of the open transaction at once.
pub fn a_commit_is_whole()
    ensures { ACommitIsWhole }
{}

/// Where nobody else writes, a grant of the read lock can stay a prefix of the history: what its link
/// had seen, which is the history at its start and an interleaving of fronts of what the links committed,
/// can stand first, and the rests after it.
pub fn a_grant_can_stand_first()
    ensures { AGrantCanStandFirst }
{}

/// Which bytes are integers, of which types, and under which counters.
pub fn integers_are_read()
    ensures { IntegersAreRead }
{}

/// A new link holds no lock and has no view, no open transaction and none of its own.
pub fn a_new_link_holds_nothing()
    ensures { ANewLinkHoldsNothing }
{}
