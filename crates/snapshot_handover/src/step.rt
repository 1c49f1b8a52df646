//! A command on a session that is handed back.
ghost use Rattle.std.specs.Prelude.{MatchResult, Ok, Err};
ghost use Rattle.my_session.specs.InStep.{MayRun};
ghost use Rattle.my_session.specs.Session.{IsFree, reader_view};
ghost use Rattle.snapshot_handover.specs.Handover.{Ran};

use link_traits::Link;
use my_session::{Session, SessionFault};
use statement_forms::Command;

/// Runs a command on a session, which is handed back either way. The conditions are those of
/// `Session::run`.
pub(crate) fn step<L: Link>(
    session: Session<L>,
    command: &Command<'_>,
) -> Result<Session<L>, (Session<L>, SessionFault)>
    requires free { IsFree (reader_view L.Link session) }
    requires may { MayRun L.Link command.now session.link }

    ensures ran { MatchResult result (λ made. Ran L.Link command.now session (Ok tt) made)
        (λ gone. Ran L.Link command.now session (Err gone.1) gone.0) }
{
    let mut session = session;
    match session.run(command) {
        Ok(()) => Ok(session),
        Err(fault) => Err((session, fault)),
    }
}
