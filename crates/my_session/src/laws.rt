//! What follows from the definitions.
ghost use Rattle.my_session.specs.Laws.{LimitsAreThese, WhatComesNextIsOneThing};
ghost use Rattle.my_session.specs.Shown.{AskingKeepsOwn, AskingKeepsWhatIsShown, RowsComeFromWhatIsShown};

/// A law: of a whole message, a packet out of order, one past the limit, and 2^62 bytes before a
/// message's end, no two come next on a session, and a message and a length are one each. Does
/// nothing.
#[tactic(auto, using(crate::proofs::OneNext::one_next, crate::proofs::Exact::exact_after))]
pub fn what_comes_next_is_one_thing()
    ensures { WhatComesNextIsOneThing }
{}

/// A law: the limits of a session are these numbers: a message of 64 MiB, 2^62 bytes in all, a short
/// payload of 1,001 bytes, 1,024 bytes asked of the link at once. Does nothing.
pub fn limits_are_these()
    ensures { LimitsAreThese }
{}

/// A law: asking a query of an honest server leaves the link's transactions, locks, grants and view as
/// they were, and opens no transaction, whatever comes of it. Does nothing.
pub fn asking_keeps_own()
    ensures { AskingKeepsOwn }
{}

/// A law: where it is fixed from which history an honest server answers the queries of a form, it stays
/// so whatever is asked. Does nothing.
pub fn asking_keeps_what_is_shown()
    ensures { AskingKeepsWhatIsShown }
{}

/// A law: where that is fixed, the rows that a query is served by are one answer to it at that history;
/// where an ERR breaks them off, they are the first of one, or none. Does nothing.
pub fn rows_come_from_what_is_shown()
    ensures { RowsComeFromWhatIsShown }
{}
