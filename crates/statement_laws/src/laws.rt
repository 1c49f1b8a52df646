//! What follows from the definitions. Nothing here runs: the contracts are the laws.
ghost use Rattle.statement_laws.specs.Laws.{ACommandIsRead, ACommandIsReadAsNothingElse, AQueryIsRead, AQueryIsReadAsNothingElse, AStatementIsRead, ATextIsReadAsOneStatement, TheEffectIsKept, TheFormIsKept, TheReplyIsKept};

/// A text is read as one statement at most.
pub fn a_text_is_read_as_one_statement()
    ensures { ATextIsReadAsOneStatement }
{}

/// The text of a command that has one is read as `read_command` of it. That is the command itself, but
/// for `TimeZoneUtc`, whose text is read as `TimeZone`, and for an object's text that is the one of
/// `CreateProgress`, `CreateProgressFiles` or `CreateProgressDump`, which is read as that.
pub fn a_command_is_read()
    ensures { ACommandIsRead }
{}

/// The text of a query that has one, with numbers that fit, is read as `read_query` of it. That is the
/// query itself, but for a query for all rows that has the text of `ProgressDump` or `ProgressFiles`,
/// which is read as that.
pub fn a_query_is_read()
    ensures { AQueryIsRead }
{}

/// The text of a command is read as no other statement and is no text of a query, and a command that a
/// text is read as is itself what its text is read as.
pub fn a_command_is_read_as_nothing_else()
    ensures { ACommandIsReadAsNothingElse }
{}

/// The text of a query is read as no other statement, and a query that a text is read as is itself what
/// its text is read as.
pub fn a_query_is_read_as_nothing_else()
    ensures { AQueryIsReadAsNothingElse }
{}

/// The text of a statement, a command or a query, is read as `read_statement` of it, and as nothing else.
pub fn a_statement_is_read()
    ensures { AStatementIsRead }
{}

/// What the text of a command or a query is read as has the form of that command or query.
pub fn the_form_is_kept()
    ensures { TheFormIsKept }
{}

/// What the text of a command is read as has the same effect at an honest server and ends a transaction
/// alike, and what the text of a query is read as is answered by the same rows.
pub fn the_effect_is_kept()
    ensures { TheEffectIsKept }
{}

/// An honest server may reply to what the text of a statement is read as just as to the statement: the
/// same OKs, rows and ERRs, after which the link is in the same states, plainly and beside a holder.
pub fn the_reply_is_kept()
    ensures { TheReplyIsKept }
{}
