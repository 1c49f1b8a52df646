//! The queries for keys and rows, by their kinds.
ghost use Rattle.statement_reading.specs.Kinds.{row_query_kind_row};
ghost use Rattle.statement_reading.specs.Readings.{IsRead, InRow};

use crate::fault::StatementFault;
use crate::reading::queries::{
    key_above_query, key_query, rows_above_query, rows_between_query, rows_by_key_query,
    rows_query, rows_up_to_query,
};
use crate::reading::wide_queries::{
    rows_above_wide_query, rows_between_wide_query, rows_by_wide_key_query, rows_up_to_wide_query,
    wide_key_above_query, wide_key_query,
};
use statement_forms::Statement;
use std::alloc::Global;

/// Which query for keys or rows it is.
#[derive(Clone, Copy)]
pub(crate) enum RowQueryKind {
    Key,
    KeyAbove,
    Rows,
    RowsByKey,
    RowsAbove,
    RowsUpTo,
    RowsBetween,
    WideKey,
    WideKeyAbove,
    RowsByWideKey,
    RowsAboveWide,
    RowsUpToWide,
    RowsBetweenWide,
}

/// Reads the text of a query for keys or rows of this kind.
pub(crate) fn read_row_query<'a>(
    alloc: Global,
    text: &'a [u8],
    kind: RowQueryKind,
) -> Result<Statement<'a>, StatementFault>
    ensures { IsRead (InRow (row_query_kind_row kind)) text.now result }
{
    match kind {
        RowQueryKind::Key => key_query(alloc, text),
        RowQueryKind::KeyAbove => key_above_query(alloc, text),
        RowQueryKind::Rows => rows_query(alloc, text),
        RowQueryKind::RowsByKey => rows_by_key_query(alloc, text),
        RowQueryKind::RowsAbove => rows_above_query(alloc, text),
        RowQueryKind::RowsUpTo => rows_up_to_query(alloc, text),
        RowQueryKind::RowsBetween => rows_between_query(alloc, text),
        RowQueryKind::WideKey => wide_key_query(alloc, text),
        RowQueryKind::WideKeyAbove => wide_key_above_query(alloc, text),
        RowQueryKind::RowsByWideKey => rows_by_wide_key_query(alloc, text),
        RowQueryKind::RowsAboveWide => rows_above_wide_query(alloc, text),
        RowQueryKind::RowsUpToWide => rows_up_to_wide_query(alloc, text),
        RowQueryKind::RowsBetweenWide => rows_between_wide_query(alloc, text),
    }
}
