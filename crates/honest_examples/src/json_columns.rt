//! A table with a column of JSON. Nothing here runs: the contracts are the examples.
ghost use Rattle.honest_examples.specs.JsonColumns.{AJsonCellIsSpelledAsItIsPrinted, JsonTextsAreAsTheyArePrinted, NoOtherCellIsSpelledAsJson};

/// A cell of a column of JSON is spelled by `CONVERT('..' USING utf8mb4)` of a text that the server prints,
/// or as NULL. A text between quotes, and a text that the server prints otherwise, are refused.
pub fn a_json_cell_is_spelled_as_it_is_printed()
    ensures { AJsonCellIsSpelledAsItIsPrinted }
{}

/// `CONVERT('..' USING utf8mb4)` is refused in a column of another type.
pub fn no_other_cell_is_spelled_as_json()
    ensures { NoOtherCellIsSpelledAsJson }
{}

/// A history that holds a JSON text as the server prints it is sound, and one that holds it otherwise
/// isn't.
pub fn json_texts_are_as_they_are_printed()
    ensures { JsonTextsAreAsTheyArePrinted }
{}
