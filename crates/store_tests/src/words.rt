//! The words of rows.
use crate::fault::CaseFault;
use server_data::CellList;
use sql_cells::Cell;

// The cell as it stands, where it is text.
fn cell_into(cell: &Cell, words: &mut String) -> Result<(), CaseFault> {
    let Some(bytes) = cell.as_slice() else {
        words.push_str("NULL")?;
        return Ok(());
    };
    match std::str::from_utf8(bytes) {
        Ok(text) => words.push_str(text)?,
        Err(_) => words.push_str("not a text")?,
    }
    Ok(())
}

fn row_into(row: &CellList, words: &mut String) -> Result<(), CaseFault> {
    for cell in row.as_slice() {
        words.push(' ')?;
        cell_into(cell, words)?;
    }
    Ok(())
}

/// The rows, each after a bar.
pub fn rows_into(rows: &[CellList], words: &mut String) -> Result<(), CaseFault> {
    for row in rows {
        words.push_str(" |")?;
        row_into(row, words)?;
    }
    Ok(())
}
