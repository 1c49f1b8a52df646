//! The database after a history.
ghost use Rattle.std.specs.Prelude.{◌≡◌, IfOk};
ghost use Rattle.std.specs.List.{list_any};
ghost use Rattle.server_data.specs.declared.data.Change.TheVariants.{Make, Drop, Put, Remove};
ghost use Rattle.server_data.specs.Fold.{changes_db, db, fits_row, has_place, is_plain_column, may_drop, may_make, plain_count, stands_in, table_of_trigger, takes_row, without_first, without_row};
ghost use Rattle.server_model.specs.Parts.{Applied, Fitted, has_table_of, objects_without, rows_without, tables_after, tables_without};

use crate::equal::{are_bytes, is_kind, is_row};
use crate::find::{has_object, has_schema, is_object, is_of_table, table_of};
use crate::lists::{append, push_if};
use object_forms::{Column, Kind};
use plain_data::{Name, OutOfMemory, PlainList};
use server_data::{
    CellList, Change, Database, History, Need, Object, ObjectList, RowList, TableList, TableRows,
};
use sql_cells::Cell;
use std::alloc::Global;

/// The database after the history, which starts with nothing; None where a change doesn't fit. It is
/// refused only for want of memory.
pub fn replay(alloc: Global, history: &History) -> Result<Option<Database>, OutOfMemory>
    ensures { IfOk result (λ found. found ≡ db history.now) }
{
    let mut database = Database {
        objects: PlainList::new(alloc),
        rows: PlainList::new(alloc),
    };
    let mut left = history.as_slice();
    'history: while let [transaction, rest @ ..] = left {
        if !apply_changes(alloc, &mut database, transaction.changes.as_slice())? {
            return Ok(None);
        }
        left = rest;
    }
    Ok(Some(database))
}

/// Makes the changes one by one, and answers whether they fit. Where they do, the database is the one
/// after them; where they don't, or memory runs out, it isn't said what it holds then. It is refused only
/// for want of memory. `may_apply` tells beforehand whether they fit.
pub fn apply_changes(
    alloc: Global,
    database: &mut Database,
    changes: &[Change],
) -> Result<bool, OutOfMemory>
    ensures { Fitted result (changes_db database.old changes.now) database.new }
{
    let mut left = changes;
    'changes: while let [change, rest @ ..] = left {
        if !apply(alloc, database, change)? {
            return Ok(false);
        }
        left = rest;
    }
    Ok(true)
}

fn apply(alloc: Global, database: &mut Database, change: &Change) -> Result<bool, OutOfMemory>
    ensures { Applied result database.old change.now database.new }
{
    match change {
        Change::Make(object) => make(database, object),
        Change::Drop { kind, schema, name } => drop_object(alloc, database, *kind, schema, name),
        Change::Put { schema, table, row } => put(alloc, database, schema, table, row),
        Change::Remove { schema, table, row } => remove(alloc, database, schema, table, row),
    }
}

#[tactic(auto, unfolding(server_data::specs::Fold::change_db))]
fn make(database: &mut Database, object: &Object) -> Result<bool, OutOfMemory>
    ensures { Applied result database.old (Make object.now) database.new }
{
    if !may_make(database, object) {
        return Ok(false);
    }
    database.objects.push(object.copy()?)?;
    Ok(true)
}

#[tactic(auto, unfolding(server_data::specs::Fold::change_db))]
fn drop_object(
    alloc: Global,
    database: &mut Database,
    kind: Kind,
    schema: &Name,
    name: &Name,
) -> Result<bool, OutOfMemory>
    ensures { Applied result database.old (Drop kind schema.now name.now) database.new }
{
    if !may_drop(database, kind, schema.as_slice(), name.as_slice()) {
        return Ok(false);
    }
    database.objects = objects_without(
        alloc,
        database.objects.as_slice(),
        kind,
        schema.as_slice(),
        name.as_slice(),
    )?;
    database.rows = tables_after(
        alloc,
        database.rows.as_slice(),
        kind,
        schema.as_slice(),
        name.as_slice(),
    )?;
    Ok(true)
}

#[tactic(auto, unfolding(server_data::specs::Fold::change_db))]
fn put(
    alloc: Global,
    database: &mut Database,
    schema: &Name,
    table: &Name,
    row: &CellList,
) -> Result<bool, OutOfMemory>
    ensures { Applied result database.old (Put schema.now table.now row.now) database.new }
{
    if !fits_row(
        database,
        schema.as_slice(),
        table.as_slice(),
        row.as_slice(),
    ) {
        return Ok(false);
    }
    let mut rows = PlainList::new(alloc);
    rows.push(row.copy()?)?;
    database.rows.push(TableRows {
        table: Need {
            schema: schema.copy()?,
            name: table.copy()?,
        },
        rows,
    })?;
    Ok(true)
}

#[tactic(auto, unfolding(server_data::specs::Fold::change_db))]
fn remove(
    alloc: Global,
    database: &mut Database,
    schema: &Name,
    table: &Name,
    row: &CellList,
) -> Result<bool, OutOfMemory>
    ensures { Applied result database.old (Remove schema.now table.now row.now) database.new }
{
    if !has_object(database, Kind::Table, schema.as_slice(), table.as_slice()) {
        return Ok(false);
    }
    let found = without_row(
        alloc,
        schema.as_slice(),
        table.as_slice(),
        row.as_slice(),
        database.rows.as_slice(),
    )?;
    match found {
        None => Ok(false),
        Some(rows) => {
            database.rows = rows;
            Ok(true)
        }
    }
}

#[tactic(auto, unfolding(server_data::specs::Fold::may_make))]
fn may_make(database: &Database, object: &Object) -> bool
    ensures { result ≡ may_make database.now object.now }
{
    !has_object(
        database,
        object.kind,
        object.schema.as_slice(),
        object.name.as_slice(),
    ) && has_place(database, object)
}

fn has_place(database: &Database, object: &Object) -> bool
    ensures { result ≡ has_place database.now object.now object.now.kind }
{
    match object.kind {
        Kind::Schema => true,
        Kind::Table => has_schema(database, object.schema.as_slice()),
        Kind::Procedure => has_schema(database, object.schema.as_slice()),
        Kind::Function => has_schema(database, object.schema.as_slice()),
        Kind::View => has_schema(database, object.schema.as_slice()),
        Kind::Trigger => {
            has_schema(database, object.schema.as_slice())
                && has_table_of(database, object.needs.as_slice())
        }
        Kind::Event => has_schema(database, object.schema.as_slice()),
    }
}

// The table that a trigger needs is there.
fn has_table_of(database: &Database, needs: &[Need]) -> bool
    ensures { result ≡ has_table_of database.now (table_of_trigger needs.now) }
{
    let (schema, name) = table_of(needs);
    has_object(database, Kind::Table, schema, name)
}

#[tactic(auto, unfolding(server_data::specs::Fold::may_drop))]
fn may_drop(database: &Database, kind: Kind, schema: &[u8], name: &[u8]) -> bool
    ensures { result ≡ may_drop database.now kind schema.now name.now }
{
    has_object(database, kind, schema, name)
        && !(is_kind(kind, Kind::Schema) && has_any_in(database, schema))
}

// Something stands in the schema.
fn has_any_in(database: &Database, schema: &[u8]) -> bool
    ensures { result ≡ list_any (stands_in schema.now) database.now.objects }
{
    let objects = database.objects.as_slice();
    objects.iter().any(|object| stands_in(schema, object))
}

pub(crate) fn stands_in(schema: &[u8], object: &Object) -> bool
    ensures { result ≡ stands_in schema.now object.now }
{
    are_bytes(object.schema.as_slice(), schema) && !is_kind(object.kind, Kind::Schema)
}

fn fits_row(database: &Database, schema: &[u8], name: &[u8], row: &[Cell]) -> bool
    ensures { result ≡ fits_row database.now schema.now name.now row.now }
{
    let cells = row.len();
    let objects = database.objects.as_slice();
    objects
        .iter()
        .any(|object| takes_row(schema, name, cells, object))
}

pub(crate) fn takes_row(schema: &[u8], name: &[u8], cells: usize, object: &Object) -> bool
    ensures { result ≡ takes_row schema.now name.now cells object.now }
{
    is_object(Kind::Table, schema, name, object) && plain_count(object.columns.as_slice()) == cells
}

/// How many cells a row of a table with these columns has: one for each column that isn't generated. Takes
/// no memory.
pub fn plain_count(columns: &[Column]) -> usize
    ensures { result ≡ plain_count columns.now }
{
    columns.iter().filter(|column| is_plain(column)).count()
}

fn is_plain(column: &Column) -> bool
    ensures { result ≡ is_plain_column column.now }
{
    !column.generated
}

#[tactic(auto, using(crate::proofs::Fronts::kept))]
fn objects_without(
    alloc: Global,
    objects: &[Object],
    kind: Kind,
    schema: &[u8],
    name: &[u8],
) -> Result<ObjectList, OutOfMemory>
    ensures { IfOk result (λ made. made ≡ objects_without kind schema.now name.now objects.now) }
{
    let mut made = PlainList::new(alloc);
    let mut left = objects;
    'objects: while let [object, rest @ ..] = left {
        push_if(!is_object(kind, schema, name, object), &mut made, object)?;
        left = rest;
    }
    Ok(made)
}

// The rows that stay where such an object is dropped.
fn tables_after(
    alloc: Global,
    tables: &[TableRows],
    kind: Kind,
    schema: &[u8],
    name: &[u8],
) -> Result<TableList, OutOfMemory>
    ensures { IfOk result (λ made. made ≡ tables_after kind schema.now name.now tables.now) }
{
    if is_kind(kind, Kind::Table) {
        tables_without(alloc, tables, schema, name)
    } else {
        let mut made = PlainList::new(alloc);
        append(&mut made, tables)?;
        Ok(made)
    }
}

#[tactic(auto, using(crate::proofs::Fronts::kept))]
fn tables_without(
    alloc: Global,
    tables: &[TableRows],
    schema: &[u8],
    name: &[u8],
) -> Result<TableList, OutOfMemory>
    ensures { IfOk result (λ made. made ≡ tables_without schema.now name.now tables.now) }
{
    let mut made = PlainList::new(alloc);
    let mut left = tables;
    'tables: while let [rows, rest @ ..] = left {
        push_if(!is_of_table(schema, name, rows), &mut made, rows)?;
        left = rest;
    }
    Ok(made)
}

// The rows without the first that is equal to this one.
#[tactic(auto, using(crate::proofs::Fronts::more_in_front))]
fn without_first(
    alloc: Global,
    row: &[Cell],
    rows: &[CellList],
) -> Result<Option<RowList>, OutOfMemory>
    ensures { IfOk result (λ made. made ≡ without_first row.now rows.now) }
{
    let mut front = PlainList::new(alloc);
    let mut left = rows;
    'rows: while let [one, rest @ ..] = left {
        if is_row(row, one.as_slice()) {
            append(&mut front, rest)?;
            return Ok(Some(front));
        }
        front.push(one.copy()?)?;
        left = rest;
    }
    Ok(None)
}

// The same where these are the rows of the table.
fn rows_without(
    alloc: Global,
    schema: &[u8],
    name: &[u8],
    row: &[Cell],
    rows: &TableRows,
) -> Result<Option<RowList>, OutOfMemory>
    ensures { IfOk result (λ made. made ≡ rows_without schema.now name.now row.now rows.now) }
{
    if is_of_table(schema, name, rows) {
        without_first(alloc, row, rows.rows.as_slice())
    } else {
        Ok(None)
    }
}

// The same table with other rows.
fn with_rows(one: &TableRows, rows: RowList) -> Result<TableRows, OutOfMemory>
    ensures { IfOk result (λ made. made ≡ record { table = one.now.table; rows = rows }) }
{
    Ok(TableRows {
        table: one.table.copy()?,
        rows,
    })
}

#[tactic(auto, using(crate::proofs::Fronts::not_here, crate::proofs::Fronts::is_here))]
fn without_row(
    alloc: Global,
    schema: &[u8],
    name: &[u8],
    row: &[Cell],
    tables: &[TableRows],
) -> Result<Option<TableList>, OutOfMemory>
    ensures { IfOk result (λ made. made ≡ without_row schema.now name.now row.now tables.now) }
{
    let mut front = PlainList::new(alloc);
    let mut left = tables;
    'tables: while let [one, rest @ ..] = left {
        let here = rows_without(alloc, schema, name, row, one)?;
        match here {
            Some(rows) => {
                front.push(with_rows(one, rows)?)?;
                append(&mut front, rest)?;
                return Ok(Some(front));
            }
            None => front.push(one.copy()?)?,
        }
        left = rest;
    }
    Ok(None)
}
