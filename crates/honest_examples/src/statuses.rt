//! The queries for the position of the binary log. Nothing here runs: the contracts are the examples.
ghost use Rattle.honest_examples.specs.Statuses.{ANewerServerHasTheNewStatus, ANewerServerMayKeepTheOldStatus, AnOlderServerHasTheOldStatus};

/// A server before version 8.2 answers SHOW MASTER STATUS by its position, and SHOW BINARY LOG STATUS by
/// ERR.
pub fn an_older_server_has_the_old_status()
    ensures { AnOlderServerHasTheOldStatus }
{}

/// A newer server without the old statement answers SHOW BINARY LOG STATUS by its position, and SHOW
/// MASTER STATUS by ERR.
pub fn a_newer_server_has_the_new_status()
    ensures { ANewerServerHasTheNewStatus }
{}

/// A newer server that keeps the old statement answers both by its position.
pub fn a_newer_server_may_keep_the_old_status()
    ensures { ANewerServerMayKeepTheOldStatus }
{}
