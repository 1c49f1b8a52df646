//! The wide keys of tables.
use crate::words::plain;
use composite_chunks::wide_key_of;
use object_forms::{Kind, Shape};
use object_texts::shape_of;
use plain_data::{Bytes, Name, OutOfMemory};
use server_data::{NeedList, Object};
use std::alloc::Global;
use std::fmt::Write;

// The table with this text, and the columns and the key of its shape.
fn table(alloc: Global, text: &[u8], shape: Shape) -> Result<Object, OutOfMemory> {
    Ok(Object {
        kind: Kind::Table,
        schema: Name::of(alloc, "s")?,
        name: Name::of(alloc, "t")?,
        text: Bytes::of(alloc, text)?,
        settings: None,
        columns: shape.columns,
        key: shape.key,
        rank: 0,
        needs: NeedList::new(alloc),
    })
}

// The indices of the columns of a table's wide key.
fn indices_words(alloc: Global, table: &Object) -> Result<String, OutOfMemory> {
    let Some(indices) = wide_key_of(alloc, table)? else {
        return plain(alloc, "no wide key");
    };
    let mut words = plain(alloc, "columns")?;
    for index in indices.as_slice() {
        write!(words, " {index}")?;
    }
    Ok(words)
}

/// The wide key of the table that a text makes. It is refused only for want of memory.
pub fn key_words(alloc: Global, text: &[u8]) -> Result<String, OutOfMemory> {
    match shape_of(alloc, text)? {
        Some(shape) => indices_words(alloc, &table(alloc, text, shape)?),
        None => plain(alloc, "no shape"),
    }
}
