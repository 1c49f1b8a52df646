//! Worked examples of the lines that runs report, and of their exit statuses. Nothing here runs: the
//! contracts are the examples.
#![tactic(auto)]

ghost use Rattle.answer_examples.specs.Answers.{Lines, Refusals, Statuses};

/// What is reported, by examples.
pub fn lines()
    ensures { Lines }
{}

/// What is reported of an ERR, by examples.
pub fn refusals()
    ensures { Refusals }
{}

/// With which status a run ends, by examples.
pub fn statuses()
    ensures { Statuses }
{}
