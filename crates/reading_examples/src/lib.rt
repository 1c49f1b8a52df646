//! Worked readings of the texts that two statements have, and of some that look like them. Nothing here
//! runs: the contracts are the examples.
#![tactic(auto)]

ghost use Rattle.reading_examples.specs.Readings.{CommandReadings, QueryReadings};

/// What the texts of some commands are read as.
pub fn command_readings()
    ensures { CommandReadings }
{}

/// What the texts of some queries are read as.
pub fn query_readings()
    ensures { QueryReadings }
{}
