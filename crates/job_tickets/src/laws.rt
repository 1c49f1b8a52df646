//! A law of the numbers that were drawn.
ghost use Rattle.job_tickets.specs.Dealt.{JobsAreDrawnOnce};

/// Where the numbers below a count were drawn, each once, and one seat drew a number past the last of so
/// many jobs, the number of each job was drawn by exactly one seat, once.
pub fn jobs_are_drawn_once()
    ensures { JobsAreDrawnOnce }
{}
