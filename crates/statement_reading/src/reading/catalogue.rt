//! The queries for the place in the binary log, for schemas and tables, and the texts of each.
ghost use Rattle.statement_reading.specs.Kinds.{catalogue_kind_row};
ghost use Rattle.statement_reading.specs.Readings.{IsRead, InRow};

use crate::fault::StatementFault;
use crate::reading::forms::{fixed_form, text_form, texts_form};
use statement_forms::{Query, Statement};
use std::alloc::Global;

/// Which query for the server, its schemas or its tables it is.
#[derive(Clone, Copy)]
pub(crate) enum CatalogueKind {
    MasterStatus,
    BinaryLogStatus,
    Schemas,
    Tables,
    Columns,
    PrimaryKey,
}

/// Reads the text of a query of the catalogue of this kind.
pub(crate) fn read_catalogue_query<'a>(
    alloc: Global,
    text: &'a [u8],
    kind: CatalogueKind,
) -> Result<Statement<'a>, StatementFault>
    ensures { IsRead (InRow (catalogue_kind_row kind)) text.now result }
{
    match kind {
        CatalogueKind::MasterStatus => {
            fixed_form(text, b"SHOW MASTER STATUS")?;
            Ok(Statement::Query(Query::MasterStatus))
        }
        CatalogueKind::BinaryLogStatus => {
            fixed_form(text, b"SHOW BINARY LOG STATUS")?;
            Ok(Statement::Query(Query::BinaryLogStatus))
        }
        CatalogueKind::Schemas => {
            fixed_form(text, b"SELECT SCHEMA_NAME FROM information_schema.SCHEMATA")?;
            Ok(Statement::Query(Query::Schemas))
        }
        CatalogueKind::Tables => {
            let value = text_form(
                alloc,
                text,
                b"SELECT TABLE_NAME,TABLE_TYPE,ENGINE FROM information_schema.TABLES WHERE TABLE_SCHEMA=",
                b"",
            )?;
            Ok(Statement::Query(Query::Tables { schema: value }))
        }
        CatalogueKind::Columns => {
            let path = texts_form(
                alloc,
                text,
                b"SELECT COLUMN_NAME,DATA_TYPE,COLUMN_TYPE,EXTRA FROM information_schema.COLUMNS WHERE TABLE_SCHEMA=",
                b" AND TABLE_NAME=",
                b" ORDER BY ORDINAL_POSITION",
            )?;
            Ok(Statement::Query(Query::Columns {
                schema: path.schema,
                table: path.name,
            }))
        }
        CatalogueKind::PrimaryKey => {
            let path = texts_form(
                alloc,
                text,
                b"SELECT COLUMN_NAME FROM information_schema.STATISTICS WHERE TABLE_SCHEMA=",
                b" AND TABLE_NAME=",
                b" AND INDEX_NAME='PRIMARY' ORDER BY SEQ_IN_INDEX",
            )?;
            Ok(Statement::Query(Query::PrimaryKey {
                schema: path.schema,
                table: path.name,
            }))
        }
    }
}
