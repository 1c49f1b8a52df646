//! Worked texts of all statements. Nothing here runs: the contracts are the examples.
#![tactic(auto)]

ghost use Rattle.sql_examples.specs.Texts.{CommandTexts, QueryTexts};

/// The text of each command, by an example.
pub fn command_texts()
    ensures { CommandTexts }
{}

/// The text of each query, by an example.
pub fn query_texts()
    ensures { QueryTexts }
{}
