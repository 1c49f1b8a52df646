//! Readers of the queries for rows and keys.
ghost use Rattle.statement_reading.specs.Readings.{IsRead, InRow};

use crate::fault::StatementFault;
use crate::reading::kind::PartKind::{Bound, Count, Name, NameList};
use crate::reading::slot::Slot::{Again, Part, Word};
use crate::reading::slot::read_shape;
use crate::reading::values::{bound_value, count_value, key_parts, keyed_parts, source_parts};
use statement_forms::{Query, Statement};
use std::alloc::Global;

/// One key of a table, in order, after so many others.
pub(crate) fn key_query<'a>(alloc: Global, text: &'a [u8]) -> Result<Statement<'a>, StatementFault>
    ensures { IsRead (InRow 44) text.now result }
{
    let shape = [
        Word(b"SELECT "),
        Part(Name),
        Word(b" FROM "),
        Part(Name),
        Word(b"."),
        Part(Name),
        Word(b" ORDER BY "),
        Again(0),
        Word(b" LIMIT "),
        Part(Count),
        Word(b",1"),
    ];
    match read_shape(text, &shape) {
        Ok(parts) => {
            let key = parts.get(0);
            let schema = parts.get(1);
            let table = parts.get(2);
            let skipped = parts.get(3);
            let made = key_parts(alloc, key, schema, table)?;
            Ok(Statement::Query(Query::Key {
                key: made.key,
                schema: made.path.schema,
                table: made.path.name,
                skipped: count_value(skipped),
            }))
        }
        Err(place) => Err(StatementFault::BadStatement(place)),
    }
}

/// One key above a bound, after so many others.
pub(crate) fn key_above_query<'a>(
    alloc: Global,
    text: &'a [u8],
) -> Result<Statement<'a>, StatementFault>
    ensures { IsRead (InRow 45) text.now result }
{
    let shape = [
        Word(b"SELECT "),
        Part(Name),
        Word(b" FROM "),
        Part(Name),
        Word(b"."),
        Part(Name),
        Word(b" WHERE "),
        Again(0),
        Word(b" > "),
        Part(Bound),
        Word(b" ORDER BY "),
        Again(0),
        Word(b" LIMIT "),
        Part(Count),
        Word(b",1"),
    ];
    match read_shape(text, &shape) {
        Ok(parts) => {
            let key = parts.get(0);
            let schema = parts.get(1);
            let table = parts.get(2);
            let above = parts.get(3);
            let skipped = parts.get(4);
            let made = key_parts(alloc, key, schema, table)?;
            Ok(Statement::Query(Query::KeyAbove {
                key: made.key,
                schema: made.path.schema,
                table: made.path.name,
                above: bound_value(above),
                skipped: count_value(skipped),
            }))
        }
        Err(place) => Err(StatementFault::BadStatement(place)),
    }
}

/// The rows of a table.
pub(crate) fn rows_query<'a>(alloc: Global, text: &'a [u8]) -> Result<Statement<'a>, StatementFault>
    ensures { IsRead (InRow 46) text.now result }
{
    let shape = [
        Word(b"SELECT "),
        Part(NameList),
        Word(b" FROM "),
        Part(Name),
        Word(b"."),
        Part(Name),
    ];
    match read_shape(text, &shape) {
        Ok(parts) => {
            let columns = parts.get(0);
            let schema = parts.get(1);
            let table = parts.get(2);
            let made = source_parts(alloc, columns, schema, table)?;
            Ok(Statement::Query(Query::Rows {
                columns: made.columns,
                schema: made.path.schema,
                table: made.path.name,
            }))
        }
        Err(place) => Err(StatementFault::BadStatement(place)),
    }
}

/// The rows of a table in the order of its key.
pub(crate) fn rows_by_key_query<'a>(
    alloc: Global,
    text: &'a [u8],
) -> Result<Statement<'a>, StatementFault>
    ensures { IsRead (InRow 47) text.now result }
{
    let shape = [
        Word(b"SELECT "),
        Part(NameList),
        Word(b" FROM "),
        Part(Name),
        Word(b"."),
        Part(Name),
        Word(b" ORDER BY "),
        Part(Name),
    ];
    match read_shape(text, &shape) {
        Ok(parts) => {
            let columns = parts.get(0);
            let schema = parts.get(1);
            let table = parts.get(2);
            let key = parts.get(3);
            let made = keyed_parts(alloc, columns, schema, table, key)?;
            Ok(Statement::Query(Query::RowsByKey {
                columns: made.source.columns,
                schema: made.source.path.schema,
                table: made.source.path.name,
                key: made.key,
            }))
        }
        Err(place) => Err(StatementFault::BadStatement(place)),
    }
}

/// Those whose key is above a bound.
pub(crate) fn rows_above_query<'a>(
    alloc: Global,
    text: &'a [u8],
) -> Result<Statement<'a>, StatementFault>
    ensures { IsRead (InRow 48) text.now result }
{
    let shape = [
        Word(b"SELECT "),
        Part(NameList),
        Word(b" FROM "),
        Part(Name),
        Word(b"."),
        Part(Name),
        Word(b" WHERE "),
        Part(Name),
        Word(b" > "),
        Part(Bound),
        Word(b" ORDER BY "),
        Again(3),
    ];
    match read_shape(text, &shape) {
        Ok(parts) => {
            let columns = parts.get(0);
            let schema = parts.get(1);
            let table = parts.get(2);
            let key = parts.get(3);
            let above = parts.get(4);
            let made = keyed_parts(alloc, columns, schema, table, key)?;
            Ok(Statement::Query(Query::RowsAbove {
                columns: made.source.columns,
                schema: made.source.path.schema,
                table: made.source.path.name,
                key: made.key,
                above: bound_value(above),
            }))
        }
        Err(place) => Err(StatementFault::BadStatement(place)),
    }
}

/// Those whose key is at most a bound.
pub(crate) fn rows_up_to_query<'a>(
    alloc: Global,
    text: &'a [u8],
) -> Result<Statement<'a>, StatementFault>
    ensures { IsRead (InRow 49) text.now result }
{
    let shape = [
        Word(b"SELECT "),
        Part(NameList),
        Word(b" FROM "),
        Part(Name),
        Word(b"."),
        Part(Name),
        Word(b" WHERE "),
        Part(Name),
        Word(b" <= "),
        Part(Bound),
        Word(b" ORDER BY "),
        Again(3),
    ];
    match read_shape(text, &shape) {
        Ok(parts) => {
            let columns = parts.get(0);
            let schema = parts.get(1);
            let table = parts.get(2);
            let key = parts.get(3);
            let up_to = parts.get(4);
            let made = keyed_parts(alloc, columns, schema, table, key)?;
            Ok(Statement::Query(Query::RowsUpTo {
                columns: made.source.columns,
                schema: made.source.path.schema,
                table: made.source.path.name,
                key: made.key,
                up_to: bound_value(up_to),
            }))
        }
        Err(place) => Err(StatementFault::BadStatement(place)),
    }
}

/// Those whose key is above one bound and at most another.
pub(crate) fn rows_between_query<'a>(
    alloc: Global,
    text: &'a [u8],
) -> Result<Statement<'a>, StatementFault>
    ensures { IsRead (InRow 50) text.now result }
{
    let shape = [
        Word(b"SELECT "),
        Part(NameList),
        Word(b" FROM "),
        Part(Name),
        Word(b"."),
        Part(Name),
        Word(b" WHERE "),
        Part(Name),
        Word(b" > "),
        Part(Bound),
        Word(b" AND "),
        Again(3),
        Word(b" <= "),
        Part(Bound),
        Word(b" ORDER BY "),
        Again(3),
    ];
    match read_shape(text, &shape) {
        Ok(parts) => {
            let columns = parts.get(0);
            let schema = parts.get(1);
            let table = parts.get(2);
            let key = parts.get(3);
            let above = parts.get(4);
            let up_to = parts.get(5);
            let made = keyed_parts(alloc, columns, schema, table, key)?;
            Ok(Statement::Query(Query::RowsBetween {
                columns: made.source.columns,
                schema: made.source.path.schema,
                table: made.source.path.name,
                key: made.key,
                above: bound_value(above),
                up_to: bound_value(up_to),
            }))
        }
        Err(place) => Err(StatementFault::BadStatement(place)),
    }
}
