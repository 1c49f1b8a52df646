//! Transactions out of the words of a case.
use crate::fault::CaseFault;
use object_forms::{Column, ColumnList, Kind};
use plain_data::{Bytes, Name};
use server_data::{CellList, Change, ChangeList, Need, NeedList, Object, Transaction};
use sql_cells::Cell;
use std::alloc::Global;

/// The table of this name in the only schema.
pub fn table_of(alloc: Global, name: &str) -> Result<Need, CaseFault> {
    Ok(Need {
        schema: Name::of(alloc, "s")?,
        name: Name::of(alloc, name)?,
    })
}

// One column.
fn column(alloc: Global, name: &str, data_type: &[u8]) -> Result<Column, CaseFault> {
    Ok(Column {
        name: Name::of(alloc, name)?,
        data_type: Bytes::of(alloc, data_type)?,
        unsigned: false,
        generated: false,
    })
}

// Two columns, of which the first can be a key.
fn columns_of(alloc: Global) -> Result<ColumnList, CaseFault> {
    let mut columns = ColumnList::new(alloc);
    columns.push(column(alloc, "a", b"bigint")?)?;
    columns.push(column(alloc, "b", b"varchar")?)?;
    Ok(columns)
}

// A schema without columns, or a table with them.
fn object(
    alloc: Global,
    kind: Kind,
    name: &str,
    columns: ColumnList,
    key: Option<u32>,
) -> Result<Object, CaseFault> {
    Ok(Object {
        kind,
        schema: Name::of(alloc, "s")?,
        name: Name::of(alloc, name)?,
        text: Bytes::of(alloc, b"")?,
        settings: None,
        columns,
        key,
        rank: 0,
        needs: NeedList::new(alloc),
    })
}

/// The transaction that makes the schema, the table `k` with a key, and the table `t` without one.
pub fn beginning(alloc: Global) -> Result<Transaction, CaseFault> {
    let mut changes = ChangeList::new(alloc);
    let schema = object(alloc, Kind::Schema, "s", ColumnList::new(alloc), None)?;
    changes.push(Change::Make(schema))?;
    let keyed = object(alloc, Kind::Table, "k", columns_of(alloc)?, Some(0))?;
    changes.push(Change::Make(keyed))?;
    let unkeyed = object(alloc, Kind::Table, "t", columns_of(alloc)?, None)?;
    changes.push(Change::Make(unkeyed))?;
    let mark = None;
    Ok(Transaction { changes, mark })
}

fn cell_of(alloc: Global, word: &str) -> Result<Cell, CaseFault> {
    if word == "NULL" {
        return Ok(Cell::Null);
    }
    Ok(Cell::Value(Bytes::of(alloc, word.as_bytes())?))
}

fn row_of(alloc: Global, words: &str) -> Result<CellList, CaseFault> {
    let mut row = CellList::new(alloc);
    for word in words.split(' ') {
        row.push(cell_of(alloc, word)?)?;
    }
    Ok(row)
}

// `put k 1 x`, `remove k 1 x` or `drop k`.
fn change_of(alloc: Global, words: &str) -> Result<Change, CaseFault> {
    let Some((call, rest)) = words.split_once(' ') else {
        return Err(CaseFault::Unread);
    };
    if call == "drop" {
        return dropped(alloc, rest);
    }
    let Some((name, cells)) = rest.split_once(' ') else {
        return Err(CaseFault::Unread);
    };
    let schema = Name::of(alloc, "s")?;
    let table = Name::of(alloc, name)?;
    let row = row_of(alloc, cells)?;
    match call {
        "put" => Ok(Change::Put { schema, table, row }),
        "remove" => Ok(Change::Remove { schema, table, row }),
        _ => Err(CaseFault::Unread),
    }
}

fn dropped(alloc: Global, name: &str) -> Result<Change, CaseFault> {
    let schema = Name::of(alloc, "s")?;
    let name = Name::of(alloc, name)?;
    let kind = Kind::Table;
    Ok(Change::Drop { kind, schema, name })
}

/// A transaction of changes with commas between them.
pub fn transaction_of(alloc: Global, words: &str) -> Result<Transaction, CaseFault> {
    let mut changes = ChangeList::new(alloc);
    for change in words.split(", ") {
        changes.push(change_of(alloc, change)?)?;
    }
    let mark = None;
    Ok(Transaction { changes, mark })
}
