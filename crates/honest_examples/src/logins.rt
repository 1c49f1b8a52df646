//! Logins in which another plugin is asked for, and one that is turned away. Nothing here runs: the contracts are the examples.
ghost use Rattle.honest_examples.specs.Logins.{ALoginIsTurnedAway, AnotherPluginIsAskedForOnce};

/// The plugin of the accounts may be asked for, and the response to that taken. No other is asked for, and none
/// a second time.
pub fn another_plugin_is_asked_for_once()
    ensures { AnotherPluginIsAskedForOnce }
{}

/// A login may be turned away, and the link is then over. A willing server turns none away.
pub fn a_login_is_turned_away()
    ensures { ALoginIsTurnedAway }
{}
