//! The text of names, rows and statements.
ghost use Rattle.std.specs.Prelude.{◌≡◌, ◌↔◌, ◌≤◌, ◌+◌, ◌∷◌, [], ◌++◌, length, codes, false, true, IfOk, OnOk, OnErr, IsErrOf, option_copied};
ghost use Rattle.result_rows.specs.RowCells.{row_cells};
ghost use Rattle.sql_cells.specs.Literal.{literal, has_literal};
ghost use Rattle.sql_cells.specs.Name.{quoted_name};
ghost use Rattle.dumper_cli.specs.Columns.{is_row_of};
ghost use Rattle.dumper_cli.specs.DataFile.{led, quoted_names, literals, row_text, text_with_row};

use crate::column::Column;
use crate::data_file::STATEMENT_SIZE;
use plain_data::{Buffer, OutOfMemory};
use result_rows::Row;
use sql_cells::CellKind;
use sql_literals::{CellFault, cell_into, name_into};

/// Why a row's text wasn't written.
#[derive(Clone, Copy, Debug)]
pub enum RowFault {
    /// The row has another number of cells than there are columns, or the cell of a numeric column
    /// isn't a number.
    Mismatch,
    OutOfMemory,
}

/// Appends bytes as they are. It is refused only for want of memory.
#[inline]
pub fn bytes_into(bytes: &[u8], out: &mut Buffer) -> Result<(), OutOfMemory>
    ensures { OnOk result (out.new.bytes ≡ out.old.bytes ++ bytes.now) }
{
    out.reserve(bytes.len())?;
    out.push(bytes);
    Ok(())
}

// Appends a byte.
#[inline]
fn byte_into(byte: u8, out: &mut Buffer) -> Result<(), OutOfMemory>
    ensures { OnOk result (out.new.bytes ≡ out.old.bytes ++ byte ∷ []) }
{
    out.reserve(1)?;
    out.push_byte(byte);
    Ok(())
}

// Appends a quoted name after what leads it.
fn name_after(lead: u8, name: &[u8], out: &mut Buffer) -> Result<(), OutOfMemory>
    ensures { OnOk result (out.new.bytes ≡ out.old.bytes ++ lead ∷ quoted_name name.now) }
{
    byte_into(lead, out)?;
    name_into(name, out)
}

/// Appends the names of the columns between backquotes, the first after `lead` and each later one
/// after a comma. It is refused only for want of memory. After a refusal some may be appended.
pub fn names_into(lead: u8, columns: &[Column], out: &mut Buffer) -> Result<(), OutOfMemory>
    ensures { OnOk result (out.new.bytes ≡ out.old.bytes ++ led lead (quoted_names columns.now)) }
{
    let mut lead = lead;
    for column in columns {
        name_after(lead, column.name.as_slice(), out)?;
        lead = b',';
    }
    Ok(())
}

// Appends the literal of a cell after what leads it. A cell that isn't a number is told also where
// memory runs out.
#[inline]
fn cell_after(
    lead: u8,
    kind: CellKind,
    cell: Option<&[u8]>,
    out: &mut Buffer,
) -> Result<(), CellFault>
    ensures ok { OnOk result
        (out.new.bytes ≡ out.old.bytes ++ lead ∷ literal kind (option_copied cell.entry)) }
    ensures not_a_number { IsErrOf result CellFault.NotANumber
        ↔ (has_literal kind (option_copied cell.entry) ≡ false) }
{
    let begun = byte_into(lead, out);
    cell_into(kind, cell, out)?;
    begun.map_err(|_| CellFault::OutOfMemory)
}

// Appends the literals of a row's cells, the first after `(` and each later one after a comma.
// All cells are seen, also where memory runs out.
fn cells_into(columns: &[Column], row: &Row<'_>, out: &mut Buffer) -> Result<(), RowFault>
    ensures ok { OnOk result
        (out.new.bytes ≡ out.old.bytes ++ led 40 (literals columns.now (row_cells row.now))) }
    ensures mismatch { result ≡ Err RowFault.Mismatch
        ↔ is_row_of columns.now (row_cells row.now) ≡ false }
{
    let mut cells = row.cells();
    let mut lead = b'(';
    let mut fits = true;
    for column in columns {
        let Some(cell) = cells.next() else {
            return Err(RowFault::Mismatch);
        };
        match cell_after(lead, column.kind, cell, out) {
            Ok(()) => {}
            Err(CellFault::NotANumber) => return Err(RowFault::Mismatch),
            Err(CellFault::OutOfMemory) => fits = false,
        }
        lead = b',';
    }
    if cells.next().is_some() {
        return Err(RowFault::Mismatch);
    }
    if !fits {
        return Err(RowFault::OutOfMemory);
    }
    Ok(())
}

/// Appends a row: the literals of its cells with commas between them, in parentheses. It is a
/// mismatch exactly where the row isn't one of these columns; else only want of memory refuses it.
/// After a refusal a part of it may be appended.
pub fn row_into(columns: &[Column], row: &Row<'_>, out: &mut Buffer) -> Result<(), RowFault>
    ensures ok { OnOk result
        (out.new.bytes ≡ out.old.bytes ++ row_text columns.now (row_cells row.now)) }
    ensures is_row { OnOk result (is_row_of columns.now (row_cells row.now) ≡ true) }
    ensures mismatch { result ≡ Err RowFault.Mismatch
        ↔ is_row_of columns.now (row_cells row.now) ≡ false }
{
    cells_into(columns, row, out)?;
    byte_into(b')', out).map_err(|_| RowFault::OutOfMemory)
}

/// Appends a statement's first row after what leads the statement, and answers how many bytes the
/// statement has then. It is refused only for want of memory, and appends nothing then.
pub fn statement_into(
    lead: &[u8],
    head: &[u8],
    row: &[u8],
    out: &mut Buffer,
) -> Result<usize, OutOfMemory>
    ensures size { IfOk result (λ size. size ≡ length (head.now ++ row.now)) }
    ensures bytes { OnOk result
        (out.new.bytes ≡ out.old.bytes ++ (lead.now ++ head.now ++ row.now)) }
    ensures err { OnErr result (out.new.bytes ≡ out.old.bytes) }
{
    let Some(size) = head.len().checked_add(row.len()) else {
        return Err(OutOfMemory);
    };
    let Some(whole) = lead.len().checked_add(size) else {
        return Err(OutOfMemory);
    };
    out.reserve(whole)?;
    out.push(lead);
    out.push(head);
    out.push(row);
    Ok(size)
}

// Appends a further row of a statement of so many bytes, and answers how many it has then.
fn continued_into(size: usize, row: &[u8], out: &mut Buffer) -> Result<usize, OutOfMemory>
    requires { size + 2 + length row.now ≤ STATEMENT_SIZE }
    ensures size { IfOk result (λ after. after ≡ size + 2 + length row.now) }
    ensures bytes { OnOk result (out.new.bytes ≡ out.old.bytes ++ (codes ",\n" ++ row.now)) }
    ensures err { OnErr result (out.new.bytes ≡ out.old.bytes) }
{
    out.reserve(2 + row.len())?;
    out.push(b",\n");
    out.push(row);
    Ok(size + 2 + row.len())
}

/// Appends a row after others, where the last statement has so many bytes, and answers how many the
/// last one has then. The row goes into that statement where it stays within its limit, and else begins
/// the next one. It is refused only for want of memory, and appends nothing then.
pub fn later_row_into(
    size: usize,
    head: &[u8],
    row: &[u8],
    out: &mut Buffer,
) -> Result<usize, OutOfMemory>
    ensures ok { IfOk result (λ after. text_with_row head.now (record {
      bytes = out.old.bytes;
      size = size;
    }) row.now ≡ record { bytes = out.new.bytes; size = after }) }
    ensures err { OnErr result (out.new.bytes ≡ out.old.bytes) }
{
    let whole = size.saturating_add(row.len()).saturating_add(2);
    if whole <= STATEMENT_SIZE {
        continued_into(size, row, out)
    } else {
        statement_into(b";\n", head, row, out)
    }
}
