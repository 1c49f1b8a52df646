//! The commands that lock or are about a transaction, and the texts of each.
ghost use Rattle.statement_reading.specs.Kinds.{transaction_kind_row};
ghost use Rattle.statement_reading.specs.Readings.{IsRead, InRow};

use crate::fault::StatementFault;
use crate::reading::forms::fixed_form;
use statement_forms::{Command, Statement};

/// Which lock, unlocking, start or end of a transaction it is.
#[derive(Clone, Copy)]
pub(crate) enum TransactionKind {
    LockInstance,
    FlushTables,
    UnlockTables,
    UnlockInstance,
    StartSnapshot,
    Start,
    Commit,
    Rollback,
}

/// Reads the text of a lock or transaction of this kind.
pub(crate) fn read_transaction<'a>(
    text: &'a [u8],
    kind: TransactionKind,
) -> Result<Statement<'a>, StatementFault>
    ensures { IsRead (InRow (transaction_kind_row kind)) text.now result }
{
    match kind {
        TransactionKind::LockInstance => {
            fixed_form(text, b"LOCK INSTANCE FOR BACKUP")?;
            Ok(Statement::Command(Command::LockInstance))
        }
        TransactionKind::FlushTables => {
            fixed_form(text, b"FLUSH TABLES WITH READ LOCK")?;
            Ok(Statement::Command(Command::FlushTables))
        }
        TransactionKind::UnlockTables => {
            fixed_form(text, b"UNLOCK TABLES")?;
            Ok(Statement::Command(Command::UnlockTables))
        }
        TransactionKind::UnlockInstance => {
            fixed_form(text, b"UNLOCK INSTANCE")?;
            Ok(Statement::Command(Command::UnlockInstance))
        }
        TransactionKind::StartSnapshot => {
            fixed_form(text, b"START TRANSACTION WITH CONSISTENT SNAPSHOT")?;
            Ok(Statement::Command(Command::StartSnapshot))
        }
        TransactionKind::Start => {
            fixed_form(text, b"START TRANSACTION")?;
            Ok(Statement::Command(Command::Start))
        }
        TransactionKind::Commit => {
            fixed_form(text, b"COMMIT")?;
            Ok(Statement::Command(Command::Commit))
        }
        TransactionKind::Rollback => {
            fixed_form(text, b"ROLLBACK")?;
            Ok(Statement::Command(Command::Rollback))
        }
    }
}
