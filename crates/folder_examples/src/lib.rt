//! Worked examples of what the files of a dump are called, and of what `metadata` says. Nothing here
//! runs: the contracts are the examples.
#![tactic(auto)]

ghost use Rattle.folder_examples.specs.Lines.{MetadataLines, RowsOfTables};
ghost use Rattle.folder_examples.specs.Names.{FileNames, OtherNames};

/// What files are called, by examples of each kind.
pub fn file_names()
    ensures { FileNames }
{}

/// What isn't the name of a file, by examples.
pub fn other_names()
    ensures { OtherNames }
{}

/// How lines of `metadata` read, by examples.
pub fn metadata_lines()
    ensures { MetadataLines }
{}

/// How many rows a table has in `metadata`, by examples.
pub fn rows_of_tables()
    ensures { RowsOfTables }
{}
