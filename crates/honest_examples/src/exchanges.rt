//! What messages are answered by, and what bytes spell. Nothing here runs: the contracts are the examples.
ghost use Rattle.honest_examples.specs.Exchanges.{ACommandIsAnsweredByOneMessage, ACommitIsAnsweredByAnOk, ALoginIsTaken, AnOkEndsAResultSet, AQueryIsAnsweredByItsRows, AQuitIsntAnswered, AnUnknownCommandIsAnsweredByAnErr};

/// An OK or an ERR spells the reply to a command, and no result set does.
pub fn a_command_is_answered_by_one_message()
    ensures { ACommandIsAnsweredByOneMessage }
{}

/// The messages of a result set spell the rows in it and no others, and an OK spells no rows. An ERR in
/// place of the end breaks them off.
pub fn a_query_is_answered_by_its_rows()
    ensures { AQueryIsAnsweredByItsRows }
{}

/// On a server whose result sets end by an OK, such an OK ends them and no EOF stands in them. On one whose
/// result sets end by EOF packets it doesn't end them.
pub fn an_ok_ends_a_result_set()
    ensures { AnOkEndsAResultSet }
{}

/// COM_QUERY `COMMIT`, sent with the sequence id 0 where no transaction is open, is answered by an OK with
/// the id 1, by nothing else, and changes nothing.
pub fn a_commit_is_answered_by_an_ok()
    ensures { ACommitIsAnsweredByAnOk }
{}

/// COM_QUIT isn't answered.
pub fn a_quit_isnt_answered()
    ensures { AQuitIsntAnswered }
{}

/// A login may be taken, and is never left without an answer.
pub fn a_login_is_taken()
    ensures { ALoginIsTaken }
{}

/// A command that is no statement, COM_PING, is answered by ERR and by no OK.
pub fn an_unknown_command_is_answered_by_an_err()
    ensures { AnUnknownCommandIsAnsweredByAnErr }
{}
