//! Worked examples of what command lines mean. Nothing here runs: the contracts are the examples.
#![tactic(auto)]

ghost use Rattle.words_examples.specs.Dumps.{DumpsRead, DumpsRefused};
ghost use Rattle.words_examples.specs.Loads.{LoadsRead, LoadsRefused};

/// Command lines of `mydumper`, and what they ask for.
pub fn dumps_that_are_read()
    ensures { DumpsRead }
{}

/// Command lines of `mydumper` that aren't read.
pub fn dumps_that_are_refused()
    ensures { DumpsRefused }
{}

/// Command lines of `myloader`, and what they ask for.
pub fn loads_that_are_read()
    ensures { LoadsRead }
{}

/// Command lines of `myloader` that aren't read.
pub fn loads_that_are_refused()
    ensures { LoadsRefused }
{}
