//! What statements do on a link. Nothing here runs: the contracts are the examples.
ghost use Rattle.honest_examples.specs.Effects.{ACommitWaitsForTheReadLock, ARollbackDropsTheTransaction, ASchemaIsUsedWhereItIsThere, ASelectShowsTheSnapshot, ASnapshotShowsWhatWasSeen, ATableIsMadeInTheCurrentSchema, AnEmptyTransactionEndsUnderTheReadLock, AnErrBreaksOffAnAnswer, AnInsertIsCommittedAtOnce, TheBackupLockStopsACreate};

/// A row of a new key is committed at once, as a transaction of its own. One of a key that is there is
/// answered by ERR, and by nothing else.
pub fn an_insert_is_committed_at_once()
    ensures { AnInsertIsCommittedAtOnce }
{}

/// A COMMIT while the link holds the read lock is answered by ERR where a transaction with changes is open,
/// and by OK where none is.
pub fn a_commit_waits_for_the_read_lock()
    ensures { ACommitWaitsForTheReadLock }
{}

/// A transaction without changes is ended by COMMIT and by START TRANSACTION while the link holds the read
/// lock, and the history stays. Without the lock it may be committed as a transaction without changes.
pub fn an_empty_transaction_ends_under_the_read_lock()
    ensures { AnEmptyTransactionEndsUnderTheReadLock }
{}

/// A table is made in the current schema. Without one, or where it is there, its text is answered by ERR.
pub fn a_table_is_made_in_the_current_schema()
    ensures { ATableIsMadeInTheCurrentSchema }
{}

/// While the link holds the backup lock rows are put, and nothing is made.
pub fn the_backup_lock_stops_a_create()
    ensures { TheBackupLockStopsACreate }
{}

/// A schema is used where it is there, and USE of any other is answered by ERR.
pub fn a_schema_is_used_where_it_is_there()
    ensures { ASchemaIsUsedWhereItIsThere }
{}

/// A SELECT is answered by what the snapshot shows, and not by what was committed after it.
pub fn a_select_shows_the_snapshot()
    ensures { ASelectShowsTheSnapshot }
{}

/// A snapshot shows what was seen and nothing older. It commits an open transaction, and so waits for the
/// read lock where there is one.
pub fn a_snapshot_shows_what_was_seen()
    ensures { ASnapshotShowsWhatWasSeen }
{}

/// ROLLBACK drops the open transaction, and doesn't commit it.
pub fn a_rollback_drops_the_transaction()
    ensures { ARollbackDropsTheTransaction }
{}

/// A server that isn't willing may answer a query by ERR after the first rows of an answer, and after no
/// others.
pub fn an_err_breaks_off_an_answer()
    ensures { AnErrBreaksOffAnAnswer }
{}
