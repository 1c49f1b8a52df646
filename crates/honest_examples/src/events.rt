//! An event, and the settings and the time zone that it is made under. Nothing here runs: the contracts are
//! the examples.
ghost use Rattle.honest_examples.specs.Events.{AnEventIsDropped, AnEventIsMadeInATimeZone, AnEventIsShownWithItsTimeZone, EventsAreListed, OnlyAnEventHasATimeZone, TheTextOfUtcIsOfTwoStatements};

/// An event is made under the time zone that was set last, and a procedure under none. USE clears it.
pub fn an_event_is_made_in_a_time_zone()
    ensures { AnEventIsMadeInATimeZone }
{}

/// `SET TIME_ZONE='+00:00'` is the text of two statements. It is read as the later one, and both have one
/// effect.
pub fn the_text_of_utc_is_of_two_statements()
    ensures { TheTextOfUtcIsOfTwoStatements }
{}

/// The events of a schema are told by their names, and nothing else is.
pub fn events_are_listed()
    ensures { EventsAreListed }
{}

/// An event's text is shown with its settings and its time zone. A server that isn't willing may withhold
/// the text, and a willing one doesn't.
pub fn an_event_is_shown_with_its_time_zone()
    ensures { AnEventIsShownWithItsTimeZone }
{}

/// An event is dropped where it is there, and its schema isn't dropped before it.
pub fn an_event_is_dropped()
    ensures { AnEventIsDropped }
{}

/// An event with a time zone is well-formed, and a procedure with one isn't.
pub fn only_an_event_has_a_time_zone()
    ensures { OnlyAnEventHasATimeZone }
{}
