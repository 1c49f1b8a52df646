//! Worked examples of the chunks of keys. Nothing here runs: the contracts are the examples.
#![tactic(auto)]

ghost use Rattle.chunk_examples.specs.Cuts.{BoundsAreInOneChunk, PairsInTwos, SevenInThrees, SignedInOnes, SixInThrees};

/// Five keys of two columns in chunks of two: two chunks of two rows, and one of one.
pub fn pairs_in_twos()
    ensures { PairsInTwos }
{}

/// The least key of a signed column, 0 and the greatest in chunks of one: four chunks, of which the fourth
/// is empty.
pub fn signed_in_ones()
    ensures { SignedInOnes }
{}

/// Seven keys in chunks of three: two chunks of three rows, and one of one.
pub fn seven_in_threes()
    ensures { SevenInThrees }
{}

/// Six keys in chunks of three: two chunks of three rows, and an empty one.
pub fn six_in_threes()
    ensures { SixInThrees }
{}

/// A bound is in the chunk that ends there and not in the next, and the first column of a key decides where
/// it differs.
pub fn bounds_are_in_one_chunk()
    ensures { BoundsAreInOneChunk }
{}
