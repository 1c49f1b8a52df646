//! Laws of prefixes and interleavings of histories, of patterns, and of when things are told to be equal.
//! Nothing here runs: the contracts are the laws.
ghost use Rattle.server_data.specs.Laws.{EqualsItself, InTurn, KeptToEnd, KindsAreToldApart, OfItself, OfPrefix, PatternsAreReplaced, SettingsAreToldApart};

/// One history after the other is an interleaving of them.
pub fn one_after_the_other_interleaves()
    ensures { InTurn }
{}

/// What each step of an interleaving keeps, of what is left of the histories and of the database,
/// holds at its end, where nothing is left of them.
pub fn what_steps_keep_holds_at_the_end()
    ensures { KeptToEnd }
{}

/// A history is a prefix of itself.
pub fn a_history_is_its_prefix()
    ensures { OfItself }
{}

/// A prefix of a prefix of a history is a prefix of it.
pub fn prefixes_of_prefixes()
    ensures { OfPrefix }
{}

/// A pattern matches those texts that are the pattern with each `*` replaced by any bytes and each `?` by
/// one byte, and no others.
pub fn patterns_are_replaced()
    ensures { PatternsAreReplaced }
{}

/// Two kinds that are told to be equal are the same.
pub fn kinds_are_told_apart()
    ensures { KindsAreToldApart }
{}

/// Every object is told to be equal to itself.
pub fn an_object_equals_itself()
    ensures { EqualsItself }
{}

/// Settings that are told to be equal are the same in everything, or there are none.
pub fn settings_are_told_apart()
    ensures { SettingsAreToldApart }
{}
