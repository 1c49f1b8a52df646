//! A trigger on a table. Nothing here runs: the contracts are the examples.
ghost use Rattle.honest_examples.specs.Triggers.{ATriggerIsMadeOnItsTable, ATriggerIsTold, ATriggerMayPutMore};

/// A trigger is made on a table that is there, and its text is answered by ERR where that isn't.
pub fn a_trigger_is_made_on_its_table()
    ensures { ATriggerIsMadeOnItsTable }
{}

/// A trigger is told with its table and its rank.
pub fn a_trigger_is_told()
    ensures { ATriggerIsTold }
{}

/// Where the table has a trigger, an INSERT of one row may put another one too. Where it has none, it
/// puts what it spells.
pub fn a_trigger_may_put_more()
    ensures { ATriggerMayPutMore }
{}
