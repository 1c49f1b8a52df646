//! The messages of a login.
ghost use Rattle.wire_examples.specs.Logins.{Greetings, LoginsUnderEither, RequestsForAPlugin, Responses};
ghost use Rattle.wire_examples.specs.Versions.{Versions};

/// What a server's first messages say.
pub fn greetings()
    ensures { Greetings }
{}

/// Which versions are newer.
pub fn versions()
    ensures { Versions }
{}

/// The responses of two users, however result sets end.
pub fn responses()
    ensures { Responses }
{}

/// What is asked for of what two servers offer.
pub fn logins_under_either()
    ensures { LoginsUnderEither }
{}

/// What requests for another plugin say.
pub fn requests_for_a_plugin()
    ensures { RequestsForAPlugin }
{}
