//! Keys of several columns.
ghost use Rattle.std.specs.Prelude.{◌≡◌, ◌&&◌, nat_le, slice_get, IfOk};
ghost use Rattle.std.specs.List.{list_all};
ghost use Rattle.object_forms.specs.Shape.{is_integer};
ghost use Rattle.honest_server.specs.WideKey.{are_wide, columns_at, wide_key};
ghost use Rattle.composite_chunks.specs.Indices.{is_plain_integer_at};

use object_forms::{Column, IndexList};
use object_texts::key_columns;
use plain_data::OutOfMemory;
use server_data::Object;
use std::alloc::Global;

// Whether the word is that of an integer type.
fn is_integer(data_type: &[u8]) -> bool
    ensures { result ≡ is_integer data_type.now }
{
    data_type == b"tinyint".as_slice()
        || data_type == b"smallint".as_slice()
        || data_type == b"mediumint".as_slice()
        || data_type == b"int".as_slice()
        || data_type == b"bigint".as_slice()
}

// Whether there is a column of that index, which is plain and of an integer type.
fn is_plain_integer_at(columns: &[Column], index: u32) -> bool
    ensures { result ≡ is_plain_integer_at (slice_get columns.now index) }
{
    match columns.get(index as usize) {
        None => false,
        Some(column) => !column.generated && is_integer(column.data_type.as_slice()),
    }
}

// The same of all these indices.
fn are_plain_integers(columns: &[Column], indices: &[u32]) -> bool
    ensures { result ≡
        list_all (λ index. is_plain_integer_at (slice_get columns.now index)) indices.now }
{
    indices
        .iter()
        .all(|index| is_plain_integer_at(columns, *index))
}

// Whether a wide key has so many columns.
fn is_wide_count(count: usize) -> bool
    ensures { result ≡ (nat_le 2 count && nat_le count 4) }
{
    2 <= count && count <= 4
}

// Whether the indices are of two to four plain columns of integer types.
fn are_wide(columns: &[Column], indices: &[u32]) -> bool
    ensures { result ≡ are_wide (columns_at columns.now indices.now) }
{
    is_wide_count(indices.len()) && are_plain_integers(columns, indices)
}

/// A table's wide key: the indices among its columns, in the key's order, of the two to four columns that
/// the item `PRIMARY KEY (..)` of its text names between backquotes. `None` where the text has no shape or
/// no such item, where a part of the item is anything but the name of a column (a length, ASC or DESC, an
/// expression), where it names one column or more than four, and where one of the columns is generated or
/// of another type than tinyint, smallint, mediumint, int and bigint. It is refused only for want of
/// memory. (MySQL 8.0 Reference Manual, 15.1.20.)
pub fn wide_key_of(alloc: Global, table: &Object) -> Result<Option<IndexList>, OutOfMemory>
    ensures { IfOk result (λ found. found ≡ wide_key table.now) }
{
    let Some(indices) = key_columns(alloc, table.text.as_slice())? else {
        return Ok(None);
    };
    if !are_wide(table.columns.as_slice(), indices.as_slice()) {
        return Ok(None);
    }
    Ok(Some(indices))
}
