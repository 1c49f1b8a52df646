//! Laws, each the contract of a function that does nothing.
ghost use Rattle.load_laws.specs.LoadLaws.{AStepGoesOn, WorkersGoOn};

/// A law: a step of a load leads from one stage to the next, where the database is as an honest server
/// holds it, and a trigger that the step makes stands last on its table. Does nothing.
pub fn a_step_goes_on()
    ensures { AStepGoesOn }
{}

/// A law: whatever the interleaving of the workers' transactions, all their files are loaded. Does nothing.
pub fn workers_go_on()
    ensures { WorkersGoOn }
{}
