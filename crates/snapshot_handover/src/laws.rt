//! What follows from the definitions.
ghost use Rattle.snapshot_handover.specs.Reads.{FrozenReadsSeen, WorkersReadTheirViews};

/// A law: whatever comes of a query that a frozen session asks of an honest server, the session
/// stays frozen and sees nothing more, and the rows are one answer to the query at what it has
/// seen. Does nothing.
pub fn a_frozen_session_reads_what_it_has_seen()
    ensures { FrozenReadsSeen }
{}

/// A law: whatever comes of a query that a worker asks of an honest server, its view stays, and the
/// rows of a SELECT are one answer to it at the view. Does nothing.
pub fn a_worker_reads_its_view()
    ensures { WorkersReadTheirViews }
{}
