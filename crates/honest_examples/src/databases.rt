//! Well-formed databases and sound histories. Nothing here runs: the contracts are the examples.
ghost use Rattle.honest_examples.specs.Databases.{AKeyIsAnInteger, APositionHasAFile, NoTwoRowsHaveOneKey, TheHistoryMakesTheDatabase};

/// The worked history ends in the worked database.
pub fn the_history_makes_the_database()
    ensures { TheHistoryMakesTheDatabase }
{}

/// The worked database is well-formed. With a second row of one key it isn't, though the row fits into
/// the table.
pub fn no_two_rows_have_one_key()
    ensures { NoTwoRowsHaveOneKey }
{}

/// A database with a key that is no integer isn't well-formed.
pub fn a_key_is_an_integer()
    ensures { AKeyIsAnInteger }
{}

/// The worked history is sound. With a position of the binary log that has no file it isn't.
pub fn a_position_has_a_file()
    ensures { APositionHasAFile }
{}
