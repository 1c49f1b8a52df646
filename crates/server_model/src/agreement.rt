//! Whether two databases agree.
ghost use Rattle.std.specs.Prelude.{◌≡◌, ◌≤◌, ◌+◌, ◌^◌, ◌↔◌, IsTrue, count_by};
ghost use Rattle.std.specs.List.{list_all};
ghost use Rattle.server_data.specs.Agree.{Agree, comes_before, is_before, is_trigger_named, object_eq, settings_eq};
ghost use Rattle.server_data.specs.Bag.{count_of};
ghost use Rattle.server_data.specs.Fold.{is_need, rows_in, rows_of, table_of_trigger};
ghost use Rattle.server_model.specs.Parts.{count_in_table, goes_before, has_after, is_before_there, is_trigger_after};
ghost use Rattle.server_model.specs.Members.{agrees, is_as_often, is_same, same_objects, same_order, same_pair, same_pairs, same_row, same_rows, same_table};

use crate::equal::{are_bytes, is_kind, is_row};
use crate::find::{is_of_table, table_of};
use object_forms::Kind;
use server_data::{CellList, Database, Need, Object, Settings, TableRows};
use sql_cells::Cell;

/// Whether the two hold the same objects, each table's triggers in the same order, and in each table
/// the same rows, each as often. Takes no memory. Its time grows with the squares of the numbers of
/// objects and of rows, and, where most objects are triggers, with the cube of their number.
pub fn agree(one: &Database, other: &Database) -> bool
    ensures { IsTrue result ↔ Agree one.now other.now }
{
    agrees(one, other)
}

#[tactic(auto, unfolding(crate::specs::Members::agrees))]
fn agrees(one: &Database, other: &Database) -> bool
    ensures { result ≡ agrees one.now other.now }
{
    same_objects(one, other) && same_order(one, other) && same_rows(one, other)
}

fn is_same(one: bool, other: bool) -> bool
    ensures { result ≡ is_same one other }
{
    if one { other } else { !other }
}

fn same_objects(one: &Database, other: &Database) -> bool
    ensures { result ≡ same_objects one.now other.now }
{
    let ones = one.objects.as_slice();
    let others = other.objects.as_slice();
    are_as_often(ones, others, ones) && are_as_often(ones, others, others)
}

fn are_as_often(ones: &[Object], others: &[Object], objects: &[Object]) -> bool
    ensures { result ≡ list_all (is_as_often ones.now others.now) objects.now }
{
    objects
        .iter()
        .all(|object| is_as_often(ones, others, object))
}

fn is_as_often(ones: &[Object], others: &[Object], object: &Object) -> bool
    ensures { result ≡ is_as_often ones.now others.now object.now }
{
    count_objects(object, ones) == count_objects(object, others)
}

fn count_objects(object: &Object, objects: &[Object]) -> usize
    ensures { result ≡ count_by (object_eq object.now) objects.now }
{
    objects
        .iter()
        .filter(|other| are_objects(object, other))
        .count()
}

fn are_objects(one: &Object, other: &Object) -> bool
    ensures { result ≡ object_eq one.now other.now }
{
    is_kind(one.kind, other.kind)
        && are_bytes(one.schema.as_slice(), other.schema.as_slice())
        && are_bytes(one.name.as_slice(), other.name.as_slice())
        && are_bytes(one.text.as_slice(), other.text.as_slice())
        && are_settings(&one.settings, &other.settings)
}

fn are_settings(one: &Option<Settings>, other: &Option<Settings>) -> bool
    ensures { result ≡ settings_eq one.now other.now }
{
    match (one, other) {
        (None, None) => true,
        (Some(one), Some(other)) => {
            are_bytes(one.sql_mode.as_slice(), other.sql_mode.as_slice())
                && are_bytes(one.client.as_slice(), other.client.as_slice())
                && are_bytes(one.collation.as_slice(), other.collation.as_slice())
                && are_bytes(one.zone.as_slice(), other.zone.as_slice())
        }
        _ => false,
    }
}

fn same_order(one: &Database, other: &Database) -> bool
    ensures { result ≡ same_order one.now other.now }
{
    are_same_pairs(one, other, one.objects.as_slice())
        && are_same_pairs(one, other, other.objects.as_slice())
}

fn are_same_pairs(one: &Database, other: &Database, objects: &[Object]) -> bool
    ensures { result ≡ list_all (same_pairs one.now other.now objects.now) objects.now }
{
    objects
        .iter()
        .all(|first| same_pairs(one, other, objects, first))
}

fn same_pairs(one: &Database, other: &Database, seconds: &[Object], first: &Object) -> bool
    ensures { result ≡ same_pairs one.now other.now seconds.now first.now }
{
    !is_kind(first.kind, Kind::Trigger) || pairs_with(one, other, first, seconds)
}

fn pairs_with(one: &Database, other: &Database, first: &Object, seconds: &[Object]) -> bool
    ensures { result ≡ list_all (same_pair one.now other.now first.now) seconds.now }
{
    seconds
        .iter()
        .all(|second| same_pair(one, other, first, second))
}

fn same_pair(one: &Database, other: &Database, first: &Object, second: &Object) -> bool
    ensures { result ≡ same_pair one.now other.now first.now second.now }
{
    !is_kind(second.kind, Kind::Trigger)
        || is_same(
            is_before_there(one, first, second),
            is_before_there(other, first, second),
        )
}

// On the table of the first trigger.
fn is_before_there(database: &Database, first: &Object, second: &Object) -> bool
    ensures { result ≡ is_before_there database.now first.now second.now }
{
    let (schema, table) = table_of(first.needs.as_slice());
    is_before(
        database,
        schema,
        table,
        first.name.as_slice(),
        second.name.as_slice(),
    )
}

#[tactic(auto, unfolding(server_data::specs::Agree::is_before))]
fn is_before(database: &Database, schema: &[u8], table: &[u8], first: &[u8], second: &[u8]) -> bool
    ensures { result ≡ is_before database.now schema.now table.now first.now second.now }
{
    let objects = database.objects.as_slice();
    objects.iter().any(|one| goes_before(objects, schema, table, first, second, one))
}

// The object is the first trigger, and the second is among those after it.
fn goes_before(
    objects: &[Object],
    schema: &[u8],
    table: &[u8],
    first: &[u8],
    second: &[u8],
    one: &Object,
) -> bool
    ensures { result ≡ goes_before schema.now table.now first.now second.now objects.now one.now }
{
    is_trigger(schema, table, first, one) && has_after(objects, schema, table, second, one)
}

fn has_after(objects: &[Object], schema: &[u8], table: &[u8], second: &[u8], one: &Object) -> bool
    ensures { result ≡ has_after schema.now table.now second.now objects.now one.now }
{
    objects.iter().any(|other| is_trigger_after(schema, table, second, one, other))
}

fn is_trigger_after(
    schema: &[u8],
    table: &[u8],
    second: &[u8],
    one: &Object,
    other: &Object,
) -> bool
    ensures { result ≡ is_trigger_after schema.now table.now second.now one.now other.now }
{
    is_trigger(schema, table, second, other) && comes_before(one, other)
}

fn is_trigger(schema: &[u8], table: &[u8], name: &[u8], object: &Object) -> bool
    ensures { result ≡ is_trigger_named schema.now table.now name.now object.now }
{
    is_kind(object.kind, Kind::Trigger)
        && is_on(schema, table, object.needs.as_slice())
        && are_bytes(object.name.as_slice(), name)
}

fn is_on(schema: &[u8], table: &[u8], needs: &[Need]) -> bool
    ensures { result ≡ is_need schema.now table.now (table_of_trigger needs.now) }
{
    let (of_schema, of_table) = table_of(needs);
    are_bytes(of_schema, schema) && are_bytes(of_table, table)
}

fn comes_before(one: &Object, other: &Object) -> bool
    ensures { result ≡ comes_before one.now other.now }
{
    one.rank < other.rank || (one.rank == other.rank && one.name < other.name)
}

fn same_rows(one: &Database, other: &Database) -> bool
    ensures { result ≡ same_rows one.now other.now }
{
    are_same_tables(one, other, one.rows.as_slice())
        && are_same_tables(one, other, other.rows.as_slice())
}

fn are_same_tables(one: &Database, other: &Database, tables: &[TableRows]) -> bool
    ensures { result ≡ list_all (same_table one.now other.now) tables.now }
{
    tables.iter().all(|rows| same_table(one, other, rows))
}

fn same_table(one: &Database, other: &Database, rows: &TableRows) -> bool
    ensures { result ≡ same_table one.now other.now rows.now }
{
    are_same_rows(
        one,
        other,
        rows.table.schema.as_slice(),
        rows.table.name.as_slice(),
        rows.rows.as_slice(),
    )
}

fn are_same_rows(
    one: &Database,
    other: &Database,
    schema: &[u8],
    name: &[u8],
    rows: &[CellList],
) -> bool
    ensures { result ≡ list_all (same_row one.now other.now schema.now name.now) rows.now }
{
    rows.iter()
        .all(|row| same_row(one, other, schema, name, row))
}

fn same_row(one: &Database, other: &Database, schema: &[u8], name: &[u8], row: &CellList) -> bool
    ensures { result ≡ same_row one.now other.now schema.now name.now row.now }
{
    count_row(one, schema, name, row.as_slice()) == count_row(other, schema, name, row.as_slice())
}

// How often the row stands in the table.
#[tactic(auto, unfolding(server_data::specs::Fold::rows_of))]
pub(crate) fn count_row(database: &Database, schema: &[u8], name: &[u8], row: &[Cell]) -> u128
    ensures count { result ≡ count_of row.now (rows_of database.now schema.now name.now) }
    ensures bound { result + 2 ^ 64 ≤ 2 ^ 128 }
{
    count_in_tables(database.rows.as_slice(), schema, name, row)
}

fn count_in_tables(tables: &[TableRows], schema: &[u8], name: &[u8], row: &[Cell]) -> u128
    ensures count { result ≡ count_of row.now (rows_in schema.now name.now tables.now) }
    ensures bound { result + 2 ^ 64 ≤ 2 ^ 128 }
{
    let tables_size = tables.len();
    let mut count: u128 = 0;
    let mut left = tables;
    'tables: while let [one, rest @ ..] = left {
        count += count_in_table(one, schema, name, row) as u128;
        left = rest;
    }
    count
}

fn count_in_table(one: &TableRows, schema: &[u8], name: &[u8], row: &[Cell]) -> usize
    ensures { result ≡ count_in_table schema.now name.now row.now one.now }
{
    if is_of_table(schema, name, one) {
        count_in_rows(one.rows.as_slice(), row)
    } else {
        0
    }
}

#[tactic(auto, unfolding(server_data::specs::Bag::count_of))]
fn count_in_rows(rows: &[CellList], row: &[Cell]) -> usize
    ensures { result ≡ count_of row.now rows.now }
{
    rows.iter()
        .filter(|other| is_row(row, other.as_slice()))
        .count()
}
