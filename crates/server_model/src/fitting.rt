//! Whether changes fit a database, told without making them.
ghost use Rattle.std.specs.Prelude.{◌≡◌, ◌<◌, ◌≤◌, ◌+◌, ◌^◌, is_some};
ghost use Rattle.std.specs.List.{list_any};
ghost use Rattle.object_forms.specs.declared.kind.Kind.TheVariants.{Table};
ghost use Rattle.server_data.specs.declared.data.Change.TheVariants.{Make, Remove};
ghost use Rattle.server_data.specs.Bag.{count_of};
ghost use Rattle.server_data.specs.Fold.{changes_db, fits_row, has_object, has_place, has_schema, may_drop, may_make, rows_of, stands_in, table_of_trigger};
ghost use Rattle.server_model.specs.After.{any_made, any_stays, count_after, count_after_one, drops, fits_after, has_row_after, is_row_at, is_sought, makes_lasting, objects_after, objects_db, stays};

use crate::agreement::count_row;
use crate::equal::{are_bytes, is_kind, is_row};
use crate::find::{is_object, table_of};
use crate::fold::{stands_in, takes_row};
use object_forms::Kind;
use plain_data::Name;
use server_data::{Change, Database, Need, Object};
use sql_cells::Cell;

/// Whether the changes fit the database, each after those before it. Takes no memory. Its time grows
/// with the number of changes times that of the objects, of the rows and of the changes together.
pub fn may_apply(database: &Database, changes: &[Change]) -> bool
    ensures { result ≡ is_some (changes_db database.now changes.now) }
{
    let mut at = 0;
    'changes: while at < changes.len() {
        if !fits_after(database, &changes[..at], &changes[at]) {
            return false;
        }
        at += 1;
    }
    true
}

// Whether the change fits after those before it, which fit.
fn fits_after(database: &Database, before: &[Change], change: &Change) -> bool
    ensures { result ≡ fits_after database.now before.now change.now }
{
    match change {
        Change::Make(object) => may_make_after(database, before, object),
        Change::Drop { kind, schema, name } => {
            may_drop_after(database, before, *kind, schema.as_slice(), name.as_slice())
        }
        Change::Put { schema, table, row } => fits_row_after(
            database,
            before,
            schema.as_slice(),
            table.as_slice(),
            row.as_slice(),
        ),
        Change::Remove { schema, table, row } => may_remove_after(
            database,
            before,
            schema.as_slice(),
            table.as_slice(),
            row.as_slice(),
        ),
    }
}

#[tactic(auto, unfolding(server_data::specs::Fold::may_make))]
fn may_make_after(database: &Database, before: &[Change], object: &Object) -> bool
    ensures { result ≡ may_make (objects_db database.now before.now) object.now }
{
    !has_object_after(
        database,
        before,
        object.kind,
        object.schema.as_slice(),
        object.name.as_slice(),
    ) && has_place_after(database, before, object)
}

fn has_place_after(database: &Database, before: &[Change], object: &Object) -> bool
    ensures { result ≡ has_place (objects_db database.now before.now) object.now object.now.kind }
{
    match object.kind {
        Kind::Schema => true,
        Kind::Table => has_schema_after(database, before, &object.schema),
        Kind::Procedure => has_schema_after(database, before, &object.schema),
        Kind::Function => has_schema_after(database, before, &object.schema),
        Kind::View => has_schema_after(database, before, &object.schema),
        Kind::Trigger => {
            has_schema_after(database, before, &object.schema)
                && has_table_of_after(database, before, object.needs.as_slice())
        }
        Kind::Event => has_schema_after(database, before, &object.schema),
    }
}

fn has_schema_after(database: &Database, before: &[Change], schema: &Name) -> bool
    ensures { result ≡ has_schema (objects_db database.now before.now) schema.now }
{
    let schema = schema.as_slice();
    has_object_after(database, before, Kind::Schema, schema, schema)
}

// The table that a trigger needs is there after the changes.
fn has_table_of_after(database: &Database, before: &[Change], needs: &[Need]) -> bool
    ensures { result ≡ has_object (objects_db database.now before.now) Table
        (table_of_trigger needs.now).schema (table_of_trigger needs.now).name }
{
    let (schema, name) = table_of(needs);
    has_object_after(database, before, Kind::Table, schema, name)
}

#[tactic(auto, unfolding(server_data::specs::Fold::may_drop))]
fn may_drop_after(
    database: &Database,
    before: &[Change],
    kind: Kind,
    schema: &[u8],
    name: &[u8],
) -> bool
    ensures { result ≡ may_drop (objects_db database.now before.now) kind schema.now name.now }
{
    has_object_after(database, before, kind, schema, name)
        && !(is_kind(kind, Kind::Schema) && has_any_in_after(database, before, schema))
}

// Something stands in the schema after the changes.
fn has_any_in_after(database: &Database, before: &[Change], schema: &[u8]) -> bool
    ensures { result ≡ list_any (stands_in schema.now)
        (objects_after database.now.objects before.now) }
{
    any_after(&Sought::Inside(schema), database.objects.as_slice(), before)
}

fn fits_row_after(
    database: &Database,
    before: &[Change],
    schema: &[u8],
    name: &[u8],
    row: &[Cell],
) -> bool
    ensures { result ≡ fits_row (objects_db database.now before.now) schema.now name.now row.now }
{
    any_after(
        &Sought::Taking(schema, name, row.len()),
        database.objects.as_slice(),
        before,
    )
}

fn may_remove_after(
    database: &Database,
    before: &[Change],
    schema: &[u8],
    name: &[u8],
    row: &[Cell],
) -> bool
    ensures { result ≡ fits_after database.now before.now (Remove schema.now name.now row.now) }
{
    has_object_after(database, before, Kind::Table, schema, name)
        && has_row_after(database, before, schema, name, row)
}

#[tactic(auto, unfolding(server_data::specs::Fold::has_object))]
fn has_object_after(
    database: &Database,
    before: &[Change],
    kind: Kind,
    schema: &[u8],
    name: &[u8],
) -> bool
    ensures { result ≡ has_object (objects_db database.now before.now) kind schema.now name.now }
{
    any_after(
        &Sought::Named(kind, schema, name),
        database.objects.as_slice(),
        before,
    )
}

// What is looked for among objects.
#[derive(Clone, Copy)]
enum Sought<'a> {
    // An object of this kind, schema and name.
    Named(Kind, &'a [u8], &'a [u8]),
    // A table of this schema and name that takes rows of so many cells.
    Taking(&'a [u8], &'a [u8], usize),
    // An object in this schema, which isn't the schema.
    Inside(&'a [u8]),
}

fn is_sought(sought: &Sought<'_>, object: &Object) -> bool
    ensures { result ≡ is_sought sought.now object.now }
{
    match sought {
        Sought::Named(kind, schema, name) => is_object(*kind, schema, name, object),
        Sought::Taking(schema, name, cells) => takes_row(schema, name, *cells, object),
        Sought::Inside(schema) => stands_in(schema, object),
    }
}

// It is among the objects after the changes.
#[tactic(auto, using(crate::proofs::After::any_is))]
fn any_after(sought: &Sought<'_>, objects: &[Object], before: &[Change]) -> bool
    ensures { result ≡ list_any (is_sought sought.now) (objects_after objects.now before.now) }
{
    any_stays(sought, before, objects) || any_made(sought, before)
}

// One that was there stays.
fn any_stays(sought: &Sought<'_>, changes: &[Change], objects: &[Object]) -> bool
    ensures { result ≡ any_stays (is_sought sought.now) changes.now objects.now }
{
    objects
        .iter()
        .any(|object| is_lasting(sought, changes, object))
}

// It is this object, and no change drops it.
fn is_lasting(sought: &Sought<'_>, changes: &[Change], object: &Object) -> bool
    ensures { result ≡ makes_lasting (is_sought sought.now) changes.now (Make object.now) }
{
    is_sought(sought, object) && stays(changes, object)
}

fn stays(changes: &[Change], object: &Object) -> bool
    ensures { result ≡ stays changes.now object.now }
{
    !is_dropped(changes, object)
}

// One of the changes drops the object.
fn is_dropped(changes: &[Change], object: &Object) -> bool
    ensures { result ≡ list_any (drops object.now) changes.now }
{
    changes.iter().any(|change| drops(object, change))
}

fn drops(object: &Object, change: &Change) -> bool
    ensures { result ≡ drops object.now change.now }
{
    match change {
        Change::Drop { kind, schema, name } => {
            is_object(*kind, schema.as_slice(), name.as_slice(), object)
        }
        Change::Make(_) | Change::Put { .. } | Change::Remove { .. } => false,
    }
}

// One is made, and no later change drops it.
fn any_made(sought: &Sought<'_>, changes: &[Change]) -> bool
    ensures { result ≡ any_made (is_sought sought.now) changes.now }
{
    let mut left = changes;
    'changes: while let [change, rest @ ..] = left {
        if makes_lasting(sought, rest, change) {
            return true;
        }
        left = rest;
    }
    false
}

fn makes_lasting(sought: &Sought<'_>, changes: &[Change], change: &Change) -> bool
    ensures { result ≡ makes_lasting (is_sought sought.now) changes.now change.now }
{
    match change {
        Change::Make(object) => is_lasting(sought, changes, object),
        Change::Drop { .. } | Change::Put { .. } | Change::Remove { .. } => false,
    }
}

fn has_row_after(
    database: &Database,
    changes: &[Change],
    schema: &[u8],
    name: &[u8],
    row: &[Cell],
) -> bool
    ensures { result ≡ has_row_after database.now changes.now schema.now name.now row.now }
{
    0 < count_after(database, changes, schema, name, row)
}

// How often the row stands in the table after the changes.
fn count_after(
    database: &Database,
    changes: &[Change],
    schema: &[u8],
    name: &[u8],
    row: &[Cell],
) -> u128
    ensures { result ≡ count_after schema.now name.now row.now
        (count_of row.now (rows_of database.now schema.now name.now)) changes.now }
{
    let size = changes.len();
    let mut count = count_row(database, schema, name, row);
    let mut left = changes;
    'changes: while let [change, rest @ ..] = left {
        count = count_after_one(count, schema, name, row, change);
        left = rest;
    }
    count
}

fn count_after_one(count: u128, schema: &[u8], name: &[u8], row: &[Cell], change: &Change) -> u128
    requires { count + 1 < 2 ^ 128 }
    ensures after { result ≡ count_after_one schema.now name.now row.now count change.now }
    ensures bound { result ≤ count + 1 }
{
    match change {
        Change::Make(_) => count,
        Change::Drop {
            kind,
            schema: other_schema,
            name: other_name,
        } => {
            if is_kind(*kind, Kind::Table)
                && are_bytes(other_schema.as_slice(), schema)
                && are_bytes(other_name.as_slice(), name)
            {
                0
            } else {
                count
            }
        }
        Change::Put {
            schema: other_schema,
            table,
            row: other,
        } => {
            if is_row_at(
                schema,
                name,
                row,
                other_schema.as_slice(),
                table.as_slice(),
                other.as_slice(),
            ) {
                count + 1
            } else {
                count
            }
        }
        Change::Remove {
            schema: other_schema,
            table,
            row: other,
        } => {
            if is_row_at(
                schema,
                name,
                row,
                other_schema.as_slice(),
                table.as_slice(),
                other.as_slice(),
            ) {
                count.saturating_sub(1)
            } else {
                count
            }
        }
    }
}

// The other row is this one, in this table.
fn is_row_at(
    schema: &[u8],
    name: &[u8],
    row: &[Cell],
    other_schema: &[u8],
    other_name: &[u8],
    other: &[Cell],
) -> bool
    ensures { result ≡ is_row_at schema.now name.now row.now
        other_schema.now other_name.now other.now }
{
    are_bytes(other_schema, schema) && are_bytes(other_name, name) && is_row(row, other)
}
