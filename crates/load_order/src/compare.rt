//! Which of two objects is loaded first.
ghost use Rattle.std.specs.Prelude.{◌≡◌, [], IsPermutation, IsSorted};
ghost use Rattle.folder_forms.specs.LoadOrder.{load_cmp, table_name, trigger_rank};
ghost use Rattle.object_forms.specs.declared.kind.Kind.TheVariants.{Trigger};
ghost use Rattle.server_data.specs.Equal.{kind_eq, kind_number};
ghost use Rattle.load_order.specs.Stages.{in_schema_cmp};

use object_forms::Kind;
use server_data::Object;
use std::cmp::Ordering;

/// The kind's place in the load order.
pub(crate) fn number_of(kind: Kind) -> u8
    ensures { result ≡ kind_number kind }
{
    match kind {
        Kind::Schema => 0,
        Kind::Table => 1,
        Kind::Procedure => 2,
        Kind::Function => 3,
        Kind::View => 4,
        Kind::Trigger => 5,
        Kind::Event => 6,
    }
}

// Whether the object is a trigger.
fn is_trigger(object: &Object) -> bool
    ensures { result ≡ kind_eq object.now.kind Trigger }
{
    number_of(object.kind) == 5
}

// The name of a trigger's table; nothing for other kinds.
fn table_of(object: &Object) -> &[u8]
    ensures { result.now ≡ table_name object.now }
{
    if is_trigger(object) {
        if let [table, ..] = object.needs.as_slice() {
            table.name.as_slice()
        } else {
            &[]
        }
    } else {
        &[]
    }
}

// A trigger's place among those of its table; 0 for other kinds.
fn rank_of(object: &Object) -> u32
    ensures { result ≡ trigger_rank object.now }
{
    if is_trigger(object) { object.rank } else { 0 }
}

// Which of two objects of one kind and one schema comes first.
fn in_schema(one: &Object, other: &Object) -> Ordering
    ensures { result ≡ in_schema_cmp one.now other.now }
{
    table_of(one)
        .cmp(table_of(other))
        .then(rank_of(one).cmp(&rank_of(other)))
        .then(one.name.cmp(&other.name))
}

/// Which of two objects comes first in the load order, where views are by schema and name.
pub(crate) fn compare(one: &Object, other: &Object) -> Ordering
    ensures { result ≡ load_cmp one.now other.now }
{
    number_of(one.kind)
        .cmp(&number_of(other.kind))
        .then(one.schema.cmp(&other.schema))
        .then(in_schema(one, other))
}

/// Puts objects into the load order, but for views, which are by schema and name. Takes no memory.
pub(crate) fn sort(objects: &mut [Object])
    ensures same { IsPermutation objects.old objects.new }
    ensures sorted { IsSorted load_cmp objects.new }
{
    objects.sort_unstable_by(|one, other| compare(one, other));
}
