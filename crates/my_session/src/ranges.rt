//! That the numbers of a query fit their types.
ghost use Rattle.std.specs.Prelude.{◌<◌, ◌^◌};
ghost use Rattle.std.specs.List.{All};
ghost use Rattle.statement_forms.specs.Number.{IsI128};
ghost use Rattle.statement_forms.specs.Statement.{InRange};

use statement_forms::{NumberRow, Query};

// A count of rows fits its type.
fn look_at_count(count: u64)
    ensures { count < 2 ^ 64 }
{}

// A bound fits its type.
fn look_at_number(number: i128)
    ensures { IsI128 number }
{}

// The numbers of a bound fit their type.
fn look_at_row(row: &NumberRow)
    ensures { All IsI128 row.now }
{
    let _ = row.numbers();
}

/// The numbers of a query fit their types. Does nothing.
pub(crate) fn look_at_numbers(query: &Query<'_>)
    ensures { InRange query.now }
{
    match query {
        Query::Key { skipped, .. } => look_at_count(*skipped),
        Query::KeyAbove { above, skipped, .. } => {
            look_at_number(*above);
            look_at_count(*skipped);
        }
        Query::RowsAbove { above, .. } => look_at_number(*above),
        Query::RowsUpTo { up_to, .. } => look_at_number(*up_to),
        Query::RowsBetween { above, up_to, .. } => {
            look_at_number(*above);
            look_at_number(*up_to);
        }
        Query::WideKey { skipped, .. } => look_at_count(*skipped),
        Query::WideKeyAbove { above, skipped, .. } => {
            look_at_row(above);
            look_at_count(*skipped);
        }
        Query::RowsAboveWide { above, .. } => look_at_row(above),
        Query::RowsUpToWide { up_to, .. } => look_at_row(up_to),
        Query::RowsBetweenWide { above, up_to, .. } => {
            look_at_row(above);
            look_at_row(up_to);
        }
        Query::MasterStatus
        | Query::BinaryLogStatus
        | Query::Schemas
        | Query::Tables { .. }
        | Query::Columns { .. }
        | Query::PrimaryKey { .. }
        | Query::Triggers { .. }
        | Query::Routines { .. }
        | Query::ViewNeeds { .. }
        | Query::Events { .. }
        | Query::CreateDatabase { .. }
        | Query::CreateTable { .. }
        | Query::CreateView { .. }
        | Query::CreateProcedure { .. }
        | Query::CreateFunction { .. }
        | Query::CreateTrigger { .. }
        | Query::CreateEvent { .. }
        | Query::Rows { .. }
        | Query::RowsByKey { .. }
        | Query::RowsByWideKey { .. }
        | Query::ProgressDump
        | Query::ProgressFiles => {}
    }
}
