//! The messages of replies.
ghost use Rattle.wire_examples.specs.Replies.{FirstMessages, FurtherMessages, FurtherMessagesWithoutEof, PlacesOfEnds};
ghost use Rattle.wire_examples.specs.ResultSets.{ResultSets};

/// What the first messages of replies say.
pub fn first_messages()
    ensures { FirstMessages }
{}

/// What the further messages of a result set say that ends by EOF packets.
pub fn further_messages()
    ensures { FurtherMessages }
{}

/// What the further messages of a result set say that ends by an OK.
pub fn further_messages_without_eof()
    ensures { FurtherMessagesWithoutEof }
{}

/// How long the messages are that stand in an end's place.
pub fn places_of_ends()
    ensures { PlacesOfEnds }
{}

/// The messages of whole result sets.
pub fn result_sets()
    ensures { ResultSets }
{}
