//! Readers of the queries over keys of two to four columns.
ghost use Rattle.statement_reading.specs.Readings.{IsRead, InRow};

use crate::fault::StatementFault;
use crate::reading::bounds::bounds_value;
use crate::reading::kind::PartKind::{Bounds, Count, Keys, Name, NameList};
use crate::reading::slot::Slot::{Again, Part, Word};
use crate::reading::slot::read_shape;
use crate::reading::values::{count_value, source_parts, wide_parts};
use statement_forms::{Query, Statement};
use std::alloc::Global;

/// One key of two to four columns, in order, after so many others.
pub(crate) fn wide_key_query<'a>(
    alloc: Global,
    text: &'a [u8],
) -> Result<Statement<'a>, StatementFault>
    ensures { IsRead (InRow 51) text.now result }
{
    let shape = [
        Word(b"SELECT "),
        Part(Keys),
        Word(b" FROM "),
        Part(Name),
        Word(b"."),
        Part(Name),
        Word(b" ORDER BY "),
        Again(0),
        Word(b" LIMIT "),
        Part(Count),
        Word(b",1"),
    ];
    match read_shape(text, &shape) {
        Ok(parts) => {
            let keys = parts.get(0);
            let schema = parts.get(1);
            let table = parts.get(2);
            let skipped = parts.get(3);
            let made = source_parts(alloc, keys, schema, table)?;
            Ok(Statement::Query(Query::WideKey {
                keys: made.columns,
                schema: made.path.schema,
                table: made.path.name,
                skipped: count_value(skipped),
            }))
        }
        Err(place) => Err(StatementFault::BadStatement(place)),
    }
}

/// One such key above a bound, after so many others.
pub(crate) fn wide_key_above_query<'a>(
    alloc: Global,
    text: &'a [u8],
) -> Result<Statement<'a>, StatementFault>
    ensures { IsRead (InRow 52) text.now result }
{
    let shape = [
        Word(b"SELECT "),
        Part(Keys),
        Word(b" FROM "),
        Part(Name),
        Word(b"."),
        Part(Name),
        Word(b" WHERE ("),
        Again(0),
        Word(b") > ("),
        Part(Bounds(0)),
        Word(b") ORDER BY "),
        Again(0),
        Word(b" LIMIT "),
        Part(Count),
        Word(b",1"),
    ];
    match read_shape(text, &shape) {
        Ok(parts) => {
            let keys = parts.get(0);
            let schema = parts.get(1);
            let table = parts.get(2);
            let above = parts.get(3);
            let skipped = parts.get(4);
            let made = source_parts(alloc, keys, schema, table)?;
            Ok(Statement::Query(Query::WideKeyAbove {
                keys: made.columns,
                schema: made.path.schema,
                table: made.path.name,
                above: bounds_value(above),
                skipped: count_value(skipped),
            }))
        }
        Err(place) => Err(StatementFault::BadStatement(place)),
    }
}

/// The rows of a table in the order of such a key.
pub(crate) fn rows_by_wide_key_query<'a>(
    alloc: Global,
    text: &'a [u8],
) -> Result<Statement<'a>, StatementFault>
    ensures { IsRead (InRow 53) text.now result }
{
    let shape = [
        Word(b"SELECT "),
        Part(NameList),
        Word(b" FROM "),
        Part(Name),
        Word(b"."),
        Part(Name),
        Word(b" ORDER BY "),
        Part(Keys),
    ];
    match read_shape(text, &shape) {
        Ok(parts) => {
            let columns = parts.get(0);
            let schema = parts.get(1);
            let table = parts.get(2);
            let keys = parts.get(3);
            let made = wide_parts(alloc, columns, schema, table, keys)?;
            Ok(Statement::Query(Query::RowsByWideKey {
                columns: made.source.columns,
                schema: made.source.path.schema,
                table: made.source.path.name,
                keys: made.keys,
            }))
        }
        Err(place) => Err(StatementFault::BadStatement(place)),
    }
}

/// Those whose key is above a bound.
pub(crate) fn rows_above_wide_query<'a>(
    alloc: Global,
    text: &'a [u8],
) -> Result<Statement<'a>, StatementFault>
    ensures { IsRead (InRow 54) text.now result }
{
    let shape = [
        Word(b"SELECT "),
        Part(NameList),
        Word(b" FROM "),
        Part(Name),
        Word(b"."),
        Part(Name),
        Word(b" WHERE ("),
        Part(Keys),
        Word(b") > ("),
        Part(Bounds(3)),
        Word(b") ORDER BY "),
        Again(3),
    ];
    match read_shape(text, &shape) {
        Ok(parts) => {
            let columns = parts.get(0);
            let schema = parts.get(1);
            let table = parts.get(2);
            let keys = parts.get(3);
            let above = parts.get(4);
            let made = wide_parts(alloc, columns, schema, table, keys)?;
            Ok(Statement::Query(Query::RowsAboveWide {
                columns: made.source.columns,
                schema: made.source.path.schema,
                table: made.source.path.name,
                keys: made.keys,
                above: bounds_value(above),
            }))
        }
        Err(place) => Err(StatementFault::BadStatement(place)),
    }
}

/// Those whose key is at most a bound.
pub(crate) fn rows_up_to_wide_query<'a>(
    alloc: Global,
    text: &'a [u8],
) -> Result<Statement<'a>, StatementFault>
    ensures { IsRead (InRow 55) text.now result }
{
    let shape = [
        Word(b"SELECT "),
        Part(NameList),
        Word(b" FROM "),
        Part(Name),
        Word(b"."),
        Part(Name),
        Word(b" WHERE ("),
        Part(Keys),
        Word(b") <= ("),
        Part(Bounds(3)),
        Word(b") ORDER BY "),
        Again(3),
    ];
    match read_shape(text, &shape) {
        Ok(parts) => {
            let columns = parts.get(0);
            let schema = parts.get(1);
            let table = parts.get(2);
            let keys = parts.get(3);
            let up_to = parts.get(4);
            let made = wide_parts(alloc, columns, schema, table, keys)?;
            Ok(Statement::Query(Query::RowsUpToWide {
                columns: made.source.columns,
                schema: made.source.path.schema,
                table: made.source.path.name,
                keys: made.keys,
                up_to: bounds_value(up_to),
            }))
        }
        Err(place) => Err(StatementFault::BadStatement(place)),
    }
}

/// Those whose key is above one bound and at most another.
pub(crate) fn rows_between_wide_query<'a>(
    alloc: Global,
    text: &'a [u8],
) -> Result<Statement<'a>, StatementFault>
    ensures { IsRead (InRow 56) text.now result }
{
    let shape = [
        Word(b"SELECT "),
        Part(NameList),
        Word(b" FROM "),
        Part(Name),
        Word(b"."),
        Part(Name),
        Word(b" WHERE ("),
        Part(Keys),
        Word(b") > ("),
        Part(Bounds(3)),
        Word(b") AND ("),
        Again(3),
        Word(b") <= ("),
        Part(Bounds(3)),
        Word(b") ORDER BY "),
        Again(3),
    ];
    match read_shape(text, &shape) {
        Ok(parts) => {
            let columns = parts.get(0);
            let schema = parts.get(1);
            let table = parts.get(2);
            let keys = parts.get(3);
            let above = parts.get(4);
            let up_to = parts.get(5);
            let made = wide_parts(alloc, columns, schema, table, keys)?;
            Ok(Statement::Query(Query::RowsBetweenWide {
                columns: made.source.columns,
                schema: made.source.path.schema,
                table: made.source.path.name,
                keys: made.keys,
                above: bounds_value(above),
                up_to: bounds_value(up_to),
            }))
        }
        Err(place) => Err(StatementFault::BadStatement(place)),
    }
}
