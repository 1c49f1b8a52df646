//! What a choice selects of a database.
ghost use Rattle.std.specs.Prelude.{◌≡◌, IfOk, bytes_eq};
ghost use Rattle.std.specs.List.{list_any};
ghost use Rattle.server_data.specs.Fold.{is_need};
ghost use Rattle.server_data.specs.Select.{dotted_table, fits_pattern, is_empty, is_reserved, names_or_any, selection, selects_object, selects_rows, selects_schema, selects_table};
ghost use Rattle.server_model.specs.Parts.{has_schema_or_any, has_table, has_table_or_any, selected_objects, selected_rows, selects_as_kind, selects_trigger};

use crate::equal::are_bytes;
use crate::find::{has_object, has_schema, is_need, table_of};
use crate::lists::push_if;
use crate::pattern::pattern_matches;
use object_forms::Kind;
use plain_data::{Bytes, Name, OutOfMemory, PlainList};
use server_data::{Choice, Database, Need, Object, ObjectList, TableList, TableRows};
use std::alloc::Global;

/// What the choice selects of the database: the objects in their order, and the rows of the
/// selected tables. It is refused only for want of memory.
pub fn select(alloc: Global, database: &Database, choice: &Choice) -> Result<Database, OutOfMemory>
    ensures { IfOk result (λ made. made ≡ selection choice.now database.now) }
{
    Ok(Database {
        objects: selected_objects(alloc, database, choice)?,
        rows: selected_rows(alloc, database, choice)?,
    })
}

#[tactic(auto, using(crate::proofs::Fronts::kept))]
fn selected_objects(
    alloc: Global,
    database: &Database,
    choice: &Choice,
) -> Result<ObjectList, OutOfMemory>
    ensures { IfOk result (λ made. made ≡ selected_objects choice.now database.now) }
{
    let mut made = PlainList::new(alloc);
    let mut left = database.objects.as_slice();
    'objects: while let [object, rest @ ..] = left {
        push_if(
            selects_object(alloc, choice, database, object)?,
            &mut made,
            object,
        )?;
        left = rest;
    }
    Ok(made)
}

#[tactic(auto, using(crate::proofs::Fronts::kept))]
fn selected_rows(
    alloc: Global,
    database: &Database,
    choice: &Choice,
) -> Result<TableList, OutOfMemory>
    ensures { IfOk result (λ made. made ≡ selected_rows choice.now database.now) }
{
    let mut made = PlainList::new(alloc);
    let mut left = database.rows.as_slice();
    'tables: while let [rows, rest @ ..] = left {
        push_if(
            selects_rows(alloc, choice, database, rows)?,
            &mut made,
            rows,
        )?;
        left = rest;
    }
    Ok(made)
}

fn selects_object(
    alloc: Global,
    choice: &Choice,
    database: &Database,
    object: &Object,
) -> Result<bool, OutOfMemory>
    ensures { IfOk result (λ is. is ≡ selects_object choice.now database.now object.now) }
{
    if choice.no_schemas {
        return Ok(false);
    }
    if !has_schema(database, object.schema.as_slice()) {
        return Ok(false);
    }
    selects_kind(alloc, choice, database, object)
}

fn selects_kind(
    alloc: Global,
    choice: &Choice,
    database: &Database,
    object: &Object,
) -> Result<bool, OutOfMemory>
    ensures { IfOk result (λ is. is ≡ selects_as_kind choice.now database.now object.now) }
{
    let schema = object.schema.as_slice();
    let name = object.name.as_slice();
    match object.kind {
        Kind::Schema => Ok(selects_schema(choice, name)),
        Kind::Table => selects_table(alloc, choice, schema, name),
        Kind::View => selects_table(alloc, choice, schema, name),
        Kind::Procedure => Ok(choice.routines && selects_schema(choice, schema)),
        Kind::Function => Ok(choice.routines && selects_schema(choice, schema)),
        Kind::Trigger => selects_trigger(alloc, choice, database, object.needs.as_slice()),
        Kind::Event => Ok(choice.events && selects_schema(choice, schema)),
    }
}

// Triggers are selected, and the table of this one is.
fn selects_trigger(
    alloc: Global,
    choice: &Choice,
    database: &Database,
    needs: &[Need],
) -> Result<bool, OutOfMemory>
    ensures { IfOk result (λ is. is ≡ selects_trigger choice.now database.now needs.now) }
{
    if !choice.triggers {
        return Ok(false);
    }
    let (schema, name) = table_of(needs);
    has_table(alloc, choice, database, schema, name)
}

fn selects_rows(
    alloc: Global,
    choice: &Choice,
    database: &Database,
    rows: &TableRows,
) -> Result<bool, OutOfMemory>
    ensures { IfOk result (λ is. is ≡ selects_rows choice.now database.now rows.now) }
{
    if choice.no_data {
        return Ok(false);
    }
    let schema = rows.table.schema.as_slice();
    has_table(alloc, choice, database, schema, rows.table.name.as_slice())
}

// The table is there and selected.
fn has_table(
    alloc: Global,
    choice: &Choice,
    database: &Database,
    schema: &[u8],
    name: &[u8],
) -> Result<bool, OutOfMemory>
    ensures { IfOk result (λ is. is ≡ has_table choice.now database.now schema.now name.now) }
{
    if !selects_table(alloc, choice, schema, name)? {
        return Ok(false);
    }
    Ok(has_schema(database, schema) && has_object(database, Kind::Table, schema, name))
}

fn selects_table(
    alloc: Global,
    choice: &Choice,
    schema: &[u8],
    name: &[u8],
) -> Result<bool, OutOfMemory>
    ensures { IfOk result (λ is. is ≡ selects_table choice.now schema.now name.now) }
{
    if !selects_schema(choice, schema) {
        return Ok(false);
    }
    if !tables_name(choice.tables.as_slice(), schema, name) {
        return Ok(false);
    }
    fits_pattern(alloc, &choice.pattern, schema, name)
}

// There is no pattern, or it matches the schema, a dot and the name.
fn fits_pattern(
    alloc: Global,
    pattern: &Option<Bytes>,
    schema: &[u8],
    name: &[u8],
) -> Result<bool, OutOfMemory>
    ensures { IfOk result (λ is. is ≡ fits_pattern pattern.now (dotted_table schema.now name.now)) }
{
    match pattern {
        None => Ok(true),
        Some(pattern) => {
            let place = dotted(alloc, schema, name)?;
            Ok(pattern_matches(pattern.as_slice(), place.as_slice()))
        }
    }
}

fn dotted(alloc: Global, schema: &[u8], name: &[u8]) -> Result<Bytes, OutOfMemory>
    ensures { IfOk result (λ made. made ≡ dotted_table schema.now name.now) }
{
    let mut items = schema.to_vec(alloc)?;
    items.push(b'.')?;
    items.extend_from_slice(name)?;
    Ok(Bytes::from_vec(alloc, items))
}

// The list is empty, or names the table.
fn tables_name(tables: &[Need], schema: &[u8], name: &[u8]) -> bool
    ensures { result ≡ has_table_or_any schema.now name.now tables.now }
{
    is_empty(tables) || any_is_need(tables, schema, name)
}

fn any_is_need(tables: &[Need], schema: &[u8], name: &[u8]) -> bool
    ensures { result ≡ list_any (is_need schema.now name.now) tables.now }
{
    tables.iter().any(|need| is_need(schema, name, need))
}

fn is_empty<T>(list: &[T]) -> bool
    ensures { result ≡ is_empty list.now }
{
    match list {
        [] => true,
        [_, ..] => false,
    }
}

fn selects_schema(choice: &Choice, schema: &[u8]) -> bool
    ensures { result ≡ selects_schema choice.now schema.now }
{
    !is_reserved(schema)
        && names_or_any(choice.databases.as_slice(), schema)
        && tables_are_in(choice.tables.as_slice(), schema)
}

// The list is empty, or names a table in the schema.
fn tables_are_in(tables: &[Need], schema: &[u8]) -> bool
    ensures { result ≡ has_schema_or_any schema.now tables.now }
{
    is_empty(tables) || any_is_in(tables, schema)
}

fn any_is_in(tables: &[Need], schema: &[u8]) -> bool
    ensures { result ≡ list_any (λ need. bytes_eq need.schema schema.now) tables.now }
{
    tables
        .iter()
        .any(|need| are_bytes(need.schema.as_slice(), schema))
}

fn names_or_any(names: &[Name], name: &[u8]) -> bool
    ensures { result ≡ names_or_any names.now name.now }
{
    is_empty(names) || any_is(names, name)
}

fn any_is(names: &[Name], name: &[u8]) -> bool
    ensures { result ≡ list_any (bytes_eq name.now) names.now }
{
    names.iter().any(|other| are_bytes(name, other.as_slice()))
}

fn is_reserved(schema: &[u8]) -> bool
    ensures { result ≡ is_reserved schema.now }
{
    are_bytes(schema, b"mysql")
        || are_bytes(schema, b"sys")
        || are_bytes(schema, b"information_schema")
        || are_bytes(schema, b"performance_schema")
        || are_bytes(schema, b"myloader_progress")
}
