//! What follows from the definitions. Nothing here runs: the contracts are the laws.
ghost use Rattle.history_laws.specs.Laws.{InterleavingsAgree, ListsOverDifferentTablesCommute, ListsThatPutRowsCommute, ObjectsStandOnce, OneListIsItsInterleaving, SchemasAreThere};

/// Every interleaving of lists that change the rows of different tables fits where each of them fits
/// alone, and leaves in each table what its own list leaves there.
pub fn lists_over_different_tables_commute()
    ensures { ListsOverDifferentTablesCommute }
{}

/// The databases after any two interleavings of lists that change nothing but rows agree, where both
/// fit, also where the lists change rows of one table.
pub fn interleavings_agree()
    ensures { InterleavingsAgree }
{}

/// Every interleaving of lists that only put rows fits where each of them fits alone, and leaves in each
/// table the rows from before and those that each list puts there, be it one table or several.
pub fn lists_that_put_rows_commute()
    ensures { ListsThatPutRowsCommute }
{}

/// The only interleaving of one list is the list itself.
pub fn one_list_is_its_interleaving()
    ensures { OneListIsItsInterleaving }
{}

/// After a history there is at most one object of each kind, schema and name.
pub fn objects_stand_once()
    ensures { ObjectsStandOnce }
{}

/// After a history the schema of each object that isn't one itself is there.
pub fn schemas_are_there()
    ensures { SchemasAreThere }
{}
