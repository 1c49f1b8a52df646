//! Laws of what a store holds, by histories. Nothing here runs: the contracts are the laws.
ghost use Rattle.version_store.specs.Laws.{HistoriesGoOn, HistoriesTellWhatFits, HistoriesTellWhatIsRead};

/// Where a history leaves what a store holds, a transaction fits the store exactly where the history with
/// it at its end has a database.
pub fn histories_tell_what_fits()
    ensures { HistoriesTellWhatFits }
{}

/// Where a history leaves what a store holds and a transaction is applied, the history with it at its end
/// leaves what the store holds then.
pub fn histories_go_on()
    ensures { HistoriesGoOn }
{}

/// What is read at a snapshot is what is read of the database after the history of that time.
pub fn histories_tell_what_is_read()
    ensures { HistoriesTellWhatIsRead }
{}
