//! What is in a database.
ghost use Rattle.std.specs.Prelude.{◌≡◌, find, option_copied};
ghost use Rattle.server_data.specs.Fold.{has_object, has_schema, is_need, is_object, is_of_table, table_of_trigger};

use crate::equal::{are_bytes, is_kind};
use object_forms::Kind;
use server_data::{Database, Need, Object, TableRows};

/// Whether the object has this kind, schema and name. Takes no memory.
pub fn is_object(kind: Kind, schema: &[u8], name: &[u8], object: &Object) -> bool
    ensures { result ≡ is_object kind schema.now name.now object.now }
{
    is_kind(object.kind, kind)
        && are_bytes(object.schema.as_slice(), schema)
        && are_bytes(object.name.as_slice(), name)
}

/// The first object of this kind, schema and name, where there is one. Takes no memory.
pub fn object_in<'a>(
    objects: &'a [Object],
    kind: Kind,
    schema: &[u8],
    name: &[u8],
) -> Option<&'a Object>
    ensures { option_copied result ≡ find (is_object kind schema.now name.now) objects.now }
{
    let mut left = objects;
    'objects: while let [object, rest @ ..] = left {
        if is_object(kind, schema, name, object) {
            return Some(object);
        }
        left = rest;
    }
    None
}

#[tactic(auto, unfolding(server_data::specs::Fold::has_object))]
pub(crate) fn has_object(database: &Database, kind: Kind, schema: &[u8], name: &[u8]) -> bool
    ensures { result ≡ has_object database.now kind schema.now name.now }
{
    let objects = database.objects.as_slice();
    objects
        .iter()
        .any(|object| is_object(kind, schema, name, object))
}

pub(crate) fn has_schema(database: &Database, schema: &[u8]) -> bool
    ensures { result ≡ has_schema database.now schema.now }
{
    has_object(database, Kind::Schema, schema, schema)
}

pub(crate) fn is_need(schema: &[u8], name: &[u8], need: &Need) -> bool
    ensures { result ≡ is_need schema.now name.now need.now }
{
    are_bytes(need.schema.as_slice(), schema) && are_bytes(need.name.as_slice(), name)
}

// The schema and the name of a trigger's table: those of its first need, or empty ones.
pub(crate) fn table_of(needs: &[Need]) -> (&[u8], &[u8])
    ensures schema { result.0.now ≡ (table_of_trigger needs.now).schema }
    ensures name { result.1.now ≡ (table_of_trigger needs.now).name }
{
    match needs {
        [] => (b"", b""),
        [need, ..] => (need.schema.as_slice(), need.name.as_slice()),
    }
}

/// Whether the rows are those of this table. Takes no memory.
pub fn is_of_table(schema: &[u8], name: &[u8], rows: &TableRows) -> bool
    ensures { result ≡ is_of_table schema.now name.now rows.now }
{
    is_need(schema, name, &rows.table)
}
