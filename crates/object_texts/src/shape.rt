//! The shape of a table: its columns, its key and its engine; and the columns of its PRIMARY KEY.
ghost use Rattle.std.specs.Prelude.{◌≡◌, option_map, IfOk};
ghost use Rattle.object_forms.specs.Shape.{key_columns, plain_shape, shape};

use crate::column::columns_in;
use crate::key::{key_columns_of, key_of};
use crate::table::table_in;
use object_forms::{IndexList, Shape};
use plain_data::{Bytes, OutOfMemory};
use std::alloc::Global;

/// The shape of a table's text; `None` where the text makes no table, where no parenthesis opens
/// after its head or none closes it, where it has no column or more than 65,535, where a column's
/// name isn't UTF-8, and where no `ENGINE=` with a word stands after the parenthesis. It is refused
/// only for want of memory. (MySQL 8.0 Reference Manual, 15.1.20, 15.7.7.10.)
pub fn shape_of(alloc: Global, text: &[u8]) -> Result<Option<Shape>, OutOfMemory>
    ensures { IfOk result (λ found. found ≡ option_map plain_shape (shape text.now)) }
{
    let Some(table) = table_in(text) else {
        return Ok(None);
    };
    let Some(columns) = columns_in(alloc, table.items)? else {
        return Ok(None);
    };
    let key = key_of(alloc, table.items, columns.as_slice())?;
    let engine = Bytes::of(alloc, table.engine)?;
    Ok(Some(Shape {
        columns,
        key,
        engine,
    }))
}

/// Which columns are the key of a table: the indices among its shape's columns, in the key's order,
/// that the first item `PRIMARY KEY (..)` names. `None` where the text has no shape, where it has no
/// such item, and where a part of that item is anything but the name of a column between backquotes:
/// a name with a length, ASC or DESC, an expression, or the name of no column. White space and
/// comments around a part are passed over. It is refused only for want of memory. (MySQL 8.0
/// Reference Manual, 15.1.20.)
pub fn key_columns(alloc: Global, text: &[u8]) -> Result<Option<IndexList>, OutOfMemory>
    ensures { IfOk result (λ found. found ≡ key_columns text.now) }
{
    let Some(table) = table_in(text) else {
        return Ok(None);
    };
    let Some(columns) = columns_in(alloc, table.items)? else {
        return Ok(None);
    };
    key_columns_of(alloc, table.items, columns.as_slice())
}
