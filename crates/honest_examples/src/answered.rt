//! Answers to queries over the worked database. Nothing here runs: the contracts are the examples.
ghost use Rattle.honest_examples.specs.Answered.{ATableIsToldWithItsEngine, ATextIsShown, AllRowsCome, ColumnsAreAskedForInOrder, ColumnsAreToldWithTheirTypes, EachSchemaIsTold, KeysAreSkipped, NoPositionIsShown, NoTriggersAreTold, RowsInsideTheBoundsCome, RowsComeInTheOrderOfTheKey, TheKeyIsTold, TheLastPositionIsShown, TheSignOfPlainIntegersIsTold};

/// Rows that are asked for by key come in its order, and in no other.
pub fn rows_come_in_the_order_of_the_key()
    ensures { RowsComeInTheOrderOfTheKey }
{}

/// Of rows between bounds those above the one come, and those up to the other.
pub fn rows_inside_the_bounds_come()
    ensures { RowsInsideTheBoundsCome }
{}

/// Rows without an order come in any, and none is left out.
pub fn all_rows_come()
    ensures { AllRowsCome }
{}

/// A query that asks for the columns in another order than the table's has no answer.
pub fn columns_are_asked_for_in_order()
    ensures { ColumnsAreAskedForInOrder }
{}

/// The key after one other is the second, and after two there is none.
pub fn keys_are_skipped()
    ensures { KeysAreSkipped }
{}

/// The schema's table is told with the engine of its text.
pub fn a_table_is_told_with_its_engine()
    ensures { ATableIsToldWithItsEngine }
{}

/// Each schema is told.
pub fn each_schema_is_told()
    ensures { EachSchemaIsTold }
{}

/// Columns are told with their types, and a table that isn't there has none.
pub fn columns_are_told_with_their_types()
    ensures { ColumnsAreToldWithTheirTypes }
{}

/// A plain integer's type tells whether it is unsigned. The types of other columns may hold the word as well.
pub fn the_sign_of_plain_integers_is_told()
    ensures { TheSignOfPlainIntegersIsTold }
{}

/// Of the primary key its column is told.
pub fn the_key_is_told()
    ensures { TheKeyIsTold }
{}

/// Where there are no triggers, none is told.
pub fn no_triggers_are_told()
    ensures { NoTriggersAreTold }
{}

/// A table's text is shown. A query for that of a table that isn't there has no answer.
pub fn a_text_is_shown()
    ensures { ATextIsShown }
{}

/// The position that is shown is that of the last transaction.
pub fn the_last_position_is_shown()
    ensures { TheLastPositionIsShown }
{}

/// Where the last transaction has no position, none is shown.
pub fn no_position_is_shown()
    ensures { NoPositionIsShown }
{}
