//! The queries for the progress of a load, and the texts of each.
ghost use Rattle.statement_reading.specs.Kinds.{progress_kind_row};
ghost use Rattle.statement_reading.specs.Readings.{IsRead, InRow};

use crate::fault::StatementFault;
use crate::reading::forms::fixed_form;
use statement_forms::{Query, Statement};

/// Which query for the progress it is.
#[derive(Clone, Copy)]
pub(crate) enum ProgressKind {
    ProgressDump,
    ProgressFiles,
}

/// Reads the text of a query for the progress of this kind.
pub(crate) fn read_progress_query<'a>(
    text: &'a [u8],
    kind: ProgressKind,
) -> Result<Statement<'a>, StatementFault>
    ensures { IsRead (InRow (progress_kind_row kind)) text.now result }
{
    match kind {
        ProgressKind::ProgressDump => {
            fixed_form(text, b"SELECT `digest` FROM `myloader_progress`.`dump`")?;
            Ok(Statement::Query(Query::ProgressDump))
        }
        ProgressKind::ProgressFiles => {
            fixed_form(text, b"SELECT `name` FROM `myloader_progress`.`files`")?;
            Ok(Statement::Query(Query::ProgressFiles))
        }
    }
}
