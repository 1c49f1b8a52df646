//! The words of a database.
use crate::fault::CaseFault;
use object_forms::Kind;
use percent_encoding::{CONTROLS, percent_encode};
use server_data::{CellList, Database, Object, TableRows};
use sql_cells::Cell;
use std::alloc::Global;

fn kind_word(kind: Kind) -> &'static str {
    match kind {
        Kind::Schema => "schema",
        Kind::Table => "table",
        Kind::Procedure => "procedure",
        Kind::Function => "function",
        Kind::View => "view",
        Kind::Trigger => "trigger",
        Kind::Event => "event",
    }
}

// A comma after what stands there.
fn comma_into(words: &mut String) -> Result<(), CaseFault> {
    if !words.is_empty() {
        words.push_str(", ")?;
    }
    Ok(())
}

fn object_into(object: &Object, words: &mut String) -> Result<(), CaseFault> {
    comma_into(words)?;
    words.push_str(kind_word(object.kind))?;
    words.push(' ')?;
    words.push_str(object.schema.as_str())?;
    if object.kind != Kind::Schema {
        words.push('.')?;
        words.push_str(object.name.as_str())?;
    }
    Ok(())
}

fn cell_into(cell: &Cell, words: &mut String) -> Result<(), CaseFault> {
    match cell {
        Cell::Null => words.push_str(" NULL")?,
        Cell::Value(bytes) => {
            words.push(' ')?;
            percent_encode(bytes.as_slice(), CONTROLS).append_to(words)?;
        }
    }
    Ok(())
}

fn row_into(rows: &TableRows, row: &CellList, words: &mut String) -> Result<(), CaseFault> {
    comma_into(words)?;
    words.push_str("row ")?;
    words.push_str(rows.table.schema.as_str())?;
    words.push('.')?;
    words.push_str(rows.table.name.as_str())?;
    for cell in row.as_slice() {
        cell_into(cell, words)?;
    }
    Ok(())
}

fn rows_into(rows: &TableRows, words: &mut String) -> Result<(), CaseFault> {
    for row in rows.rows.as_slice() {
        row_into(rows, row, words)?;
    }
    Ok(())
}

/// The objects and the rows of a database, with commas between them.
pub fn database_words(alloc: Global, database: &Database) -> Result<String, CaseFault> {
    let mut words = String::new(alloc);
    for object in database.objects.as_slice() {
        object_into(object, &mut words)?;
    }
    for rows in database.rows.as_slice() {
        rows_into(rows, &mut words)?;
    }
    if words.is_empty() {
        words.push_str("nothing")?;
    }
    Ok(words)
}
