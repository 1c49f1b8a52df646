//! The queries for the stored objects of a schema, and the texts of each.
ghost use Rattle.statement_reading.specs.Kinds.{stored_kind_row};
ghost use Rattle.statement_reading.specs.Readings.{IsRead, InRow};

use crate::fault::StatementFault;
use crate::reading::forms::text_form;
use statement_forms::{Query, Statement};
use std::alloc::Global;

/// Which stored objects are asked for.
#[derive(Clone, Copy)]
pub(crate) enum StoredKind {
    Triggers,
    Routines,
    ViewNeeds,
    Events,
}

/// Reads the text of a query for stored objects of this kind.
pub(crate) fn read_stored_query<'a>(
    alloc: Global,
    text: &'a [u8],
    kind: StoredKind,
) -> Result<Statement<'a>, StatementFault>
    ensures { IsRead (InRow (stored_kind_row kind)) text.now result }
{
    match kind {
        StoredKind::Triggers => {
            let value = text_form(
                alloc,
                text,
                b"SELECT TRIGGER_NAME,EVENT_OBJECT_TABLE,ACTION_ORDER FROM information_schema.TRIGGERS WHERE TRIGGER_SCHEMA=",
                b"",
            )?;
            Ok(Statement::Query(Query::Triggers { schema: value }))
        }
        StoredKind::Routines => {
            let value = text_form(
                alloc,
                text,
                b"SELECT ROUTINE_NAME,ROUTINE_TYPE FROM information_schema.ROUTINES WHERE ROUTINE_SCHEMA=",
                b"",
            )?;
            Ok(Statement::Query(Query::Routines { schema: value }))
        }
        StoredKind::ViewNeeds => {
            let value = text_form(
                alloc,
                text,
                b"SELECT VIEW_NAME,TABLE_SCHEMA,TABLE_NAME FROM information_schema.VIEW_TABLE_USAGE WHERE VIEW_SCHEMA=",
                b"",
            )?;
            Ok(Statement::Query(Query::ViewNeeds { schema: value }))
        }
        StoredKind::Events => {
            let value = text_form(
                alloc,
                text,
                b"SELECT EVENT_NAME FROM information_schema.EVENTS WHERE EVENT_SCHEMA=",
                b"",
            )?;
            Ok(Statement::Query(Query::Events { schema: value }))
        }
    }
}
