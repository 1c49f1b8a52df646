//! A procedure, a view, and their settings. Nothing here runs: the contracts are the examples.
ghost use Rattle.honest_examples.specs.Routines.{ARoutineIsShownWithItsSettings, RoutinesAreListed, SettingsAreOfTheNextObject};

/// The settings that are made in a session are those of the objects that are made next, but for a view's
/// mode. USE clears them.
pub fn settings_are_of_the_next_object()
    ensures { SettingsAreOfTheNextObject }
{}

/// A procedure's text is shown with its settings. A willing server doesn't withhold it, and any other may.
pub fn a_routine_is_shown_with_its_settings()
    ensures { ARoutineIsShownWithItsSettings }
{}

/// Procedures and functions are listed in any order, and none is left out.
pub fn routines_are_listed()
    ensures { RoutinesAreListed }
{}
