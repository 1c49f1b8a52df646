//! Changes of rows, of counters and of the catalogue. Nothing here runs: the contracts are the examples.
ghost use Rattle.honest_examples.specs.Catalogue.{ACounterRises, ANumberAtTheCounterRaisesIt, ANumberIsUnderItsCounter, RowsAndCountersKeepTheCatalogue};

/// A database is well-formed with a number under its table's counter, and not with one at it.
pub fn a_number_is_under_its_counter()
    ensures { ANumberIsUnderItsCounter }
{}

/// A table that is dropped, made with a greater counter and given its rows again is a counter's rise.
/// With a smaller counter it isn't, nor without its rows.
pub fn a_counter_rises()
    ensures { ACounterRises }
{}

/// A row that is put and the rise of a counter keep the catalogue. A table that is made or dropped
/// doesn't.
pub fn rows_and_counters_keep_the_catalogue()
    ensures { RowsAndCountersKeepTheCatalogue }
{}

/// An INSERT of a number under its table's counter puts the row alone. At one of a number at the counter
/// the counter rises in the same transaction, since the row alone would leave an ill-formed database.
pub fn a_number_at_the_counter_raises_it()
    ensures { ANumberAtTheCounterRaisesIt }
{}
