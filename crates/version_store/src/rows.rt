//! Rows that are read of a database.
ghost use Rattle.std.specs.Prelude.{◌≡◌, ◌++◌, ◌∷◌, [], filter, if◌then◌else◌, IfOk, OnOk};
ghost use Rattle.server_data.specs.Fold.{rows_in, rows_of};
ghost use Rattle.honest_server.specs.Answer.{is_above, is_up_to};
ghost use Rattle.version_store.specs.Key.{ReadsAs, bounds_in, is_kept, key_at, rows_kept};
ghost use Rattle.version_store.specs.Read.{AreSortedByKey, is_in_bounds};

use crate::key::{cell_place, key_at};
use plain_data::{OutOfMemory, PlainList};
use server_data::{CellList, Database, Need, Object, RowList, TableRows};
use server_model::is_of_table;
use sql_cells::Cell;
use std::alloc::Global;

// Two bounds on a key: it is greater than the one and at most the other, as far as there are any.
#[derive(Clone, Copy)]
pub(crate) struct Limits {
    pub above: Option<i128>,
    pub upto: Option<i128>,
}

// What is read of a table of a database: in the order of its key, or where it has none all rows, as they
// stand.
pub(crate) fn read_rows(
    alloc: Global,
    database: &Database,
    table: &Need,
    object: &Object,
    limits: Limits,
) -> Result<RowList, OutOfMemory>
    ensures { IfOk result (λ read. ReadsAs object.now (bounds_in limits)
        (rows_of database.now table.now.schema table.now.name) read) }
{
    let tables = database.rows.as_slice();
    match object.key {
        None => rows_kept(alloc, tables, table, None, limits),
        Some(index) => {
            let place = cell_place(object.columns.as_slice(), index);
            let mut rows = rows_kept(alloc, tables, table, Some(place), limits)?;
            sort_by_key(alloc, &mut rows, place)?;
            Ok(rows)
        }
    }
}

// Stably.
fn sort_by_key(alloc: Global, rows: &mut RowList, place: usize) -> Result<(), OutOfMemory>
    ensures { OnOk result (AreSortedByKey (key_at place) rows.old rows.new) }
{
    rows.as_mut_slice()
        .sort_by_key(alloc, |row| row_key_at(row, place))?;
    Ok(())
}

fn row_key_at(row: &CellList, place: usize) -> Option<i128>
    ensures { result ≡ key_at place row.now }
{
    key_at(row.as_slice(), place)
}

// The rows of the table whose key is inside the bounds, or all of them where no key is looked at, as they
// stand.
#[tactic(auto, using(crate::proofs::Kept::kept_tables))]
fn rows_kept(
    alloc: Global,
    tables: &[TableRows],
    table: &Need,
    place: Option<usize>,
    limits: Limits,
) -> Result<RowList, OutOfMemory>
    ensures { IfOk result (λ made. made ≡ rows_kept place (bounds_in limits)
        (rows_in table.now.schema table.now.name tables.now)) }
{
    let mut made = PlainList::new(alloc);
    let mut left = tables;
    'tables: while let [one, rest @ ..] = left {
        push_table(&mut made, one, table, place, limits)?;
        left = rest;
    }
    Ok(made)
}

// Those among these rows, where they are the table's.
fn push_table(
    made: &mut RowList,
    one: &TableRows,
    table: &Need,
    place: Option<usize>,
    limits: Limits,
) -> Result<(), OutOfMemory>
    ensures { OnOk result (made.new ≡ made.old ++ rows_kept place (bounds_in limits)
        (rows_in table.now.schema table.now.name (one.now ∷ []))) }
{
    if is_of_table(table.schema.as_slice(), table.name.as_slice(), one) {
        push_rows(made, one.rows.as_slice(), place, limits)
    } else {
        Ok(())
    }
}

// Those among these rows.
#[tactic(auto, using(crate::proofs::Kept::kept))]
fn push_rows(
    made: &mut RowList,
    rows: &[CellList],
    place: Option<usize>,
    limits: Limits,
) -> Result<(), OutOfMemory>
    ensures { OnOk result (made.new
        ≡ made.old ++ rows_kept place (bounds_in limits) rows.now) }
{
    let mut left = rows;
    'rows: while let [row, rest @ ..] = left {
        push_if(is_kept(place, limits, row.as_slice()), made, row)?;
        left = rest;
    }
    Ok(())
}

// Puts a copy of the row at the end where it is kept.
fn push_if(keeps: bool, rows: &mut RowList, row: &CellList) -> Result<(), OutOfMemory>
    ensures { OnOk result (rows.new ≡ rows.old ++ (if keeps then row.now ∷ [] else [])) }
{
    if keeps {
        rows.push(row.copy()?)?;
    }
    Ok(())
}

// The key in the cell at this place is inside the bounds, or there is no place.
fn is_kept(place: Option<usize>, limits: Limits, row: &[Cell]) -> bool
    ensures { result ≡ is_kept place (bounds_in limits) row.now }
{
    match place {
        None => true,
        Some(place) => is_in_bounds(limits, key_at(row, place)),
    }
}

fn is_in_bounds(limits: Limits, key: Option<i128>) -> bool
    ensures { result ≡ is_in_bounds (bounds_in limits) key }
{
    match key {
        None => limits.above.is_none() && limits.upto.is_none(),
        Some(number) => is_above(limits.above, number) && is_up_to(limits.upto, number),
    }
}

fn is_above(bound: Option<i128>, number: i128) -> bool
    ensures { result ≡ is_above bound number }
{
    match bound {
        None => true,
        Some(bound) => bound < number,
    }
}

fn is_up_to(bound: Option<i128>, number: i128) -> bool
    ensures { result ≡ is_up_to bound number }
{
    match bound {
        None => true,
        Some(bound) => number <= bound,
    }
}
