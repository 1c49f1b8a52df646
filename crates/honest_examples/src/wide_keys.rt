//! A table whose key has two columns. Nothing here runs: the contracts are the examples.
ghost use Rattle.honest_examples.specs.WideKeys.{AWideKeyIsNamedInItsOrder, AWideKeyMayStandTwice, BoundsAreComparedAsLists, RowsComeInTheOrderOfTheWideKey, WideKeysAreSkipped};

/// Bounds are compared as lists: (1,9) comes before (2,0).
pub fn bounds_are_compared_as_lists()
    ensures { BoundsAreComparedAsLists }
{}

/// A query for one key of two columns is answered by the key that stands after those that are skipped.
pub fn wide_keys_are_skipped()
    ensures { WideKeysAreSkipped }
{}

/// Rows that are asked for by a key of two columns come in its order, those inside the bounds alone.
pub fn rows_come_in_the_order_of_the_wide_key()
    ensures { RowsComeInTheOrderOfTheWideKey }
{}

/// A query that names the key's columns in another order, or one of them alone, has no answer.
pub fn a_wide_key_is_named_in_its_order()
    ensures { AWideKeyIsNamedInItsOrder }
{}

/// A database in which a key of two columns stands twice is well-formed. A link that tells that each stands
/// once isn't sound there.
pub fn a_wide_key_may_stand_twice()
    ensures { AWideKeyMayStandTwice }
{}
