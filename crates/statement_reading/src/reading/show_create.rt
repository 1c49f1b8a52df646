//! The queries for the texts of objects, and the texts of each.
ghost use Rattle.statement_reading.specs.Kinds.{show_create_kind_row};
ghost use Rattle.statement_reading.specs.Readings.{IsRead, InRow};

use crate::fault::StatementFault;
use crate::reading::forms::{name_form, path_form};
use statement_forms::{Query, Statement};
use std::alloc::Global;

/// Whose text is asked for.
#[derive(Clone, Copy)]
pub(crate) enum ShowCreateKind {
    CreateDatabase,
    CreateTable,
    CreateView,
    CreateProcedure,
    CreateFunction,
    CreateTrigger,
    CreateEvent,
}

/// Reads the text of a SHOW CREATE of this kind.
pub(crate) fn read_show_create<'a>(
    alloc: Global,
    text: &'a [u8],
    kind: ShowCreateKind,
) -> Result<Statement<'a>, StatementFault>
    ensures { IsRead (InRow (show_create_kind_row kind)) text.now result }
{
    match kind {
        ShowCreateKind::CreateDatabase => {
            let schema = name_form(alloc, text, b"SHOW CREATE DATABASE ")?;
            Ok(Statement::Query(Query::CreateDatabase { schema }))
        }
        ShowCreateKind::CreateTable => {
            let path = path_form(alloc, text, b"SHOW CREATE TABLE ")?;
            Ok(Statement::Query(Query::CreateTable {
                schema: path.schema,
                name: path.name,
            }))
        }
        ShowCreateKind::CreateView => {
            let path = path_form(alloc, text, b"SHOW CREATE VIEW ")?;
            Ok(Statement::Query(Query::CreateView {
                schema: path.schema,
                name: path.name,
            }))
        }
        ShowCreateKind::CreateProcedure => {
            let path = path_form(alloc, text, b"SHOW CREATE PROCEDURE ")?;
            Ok(Statement::Query(Query::CreateProcedure {
                schema: path.schema,
                name: path.name,
            }))
        }
        ShowCreateKind::CreateFunction => {
            let path = path_form(alloc, text, b"SHOW CREATE FUNCTION ")?;
            Ok(Statement::Query(Query::CreateFunction {
                schema: path.schema,
                name: path.name,
            }))
        }
        ShowCreateKind::CreateTrigger => {
            let path = path_form(alloc, text, b"SHOW CREATE TRIGGER ")?;
            Ok(Statement::Query(Query::CreateTrigger {
                schema: path.schema,
                name: path.name,
            }))
        }
        ShowCreateKind::CreateEvent => {
            let path = path_form(alloc, text, b"SHOW CREATE EVENT ")?;
            Ok(Statement::Query(Query::CreateEvent {
                schema: path.schema,
                name: path.name,
            }))
        }
    }
}
