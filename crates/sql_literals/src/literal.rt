//! Literals of cells.
ghost use Rattle.std.specs.Prelude.{◌≡◌, ◌↔◌, ◌≤◌, ◌++◌, length, true, false, is_ok, IfSome, IfOk, OnOk, OnErr, IsErrOf, option_copied};
ghost use Rattle.sql_cells.specs.Literal.{literal, has_literal};
ghost use Rattle.sql_literals.specs.Room.{TakesRoom};

use crate::converted::{converted_into, converted_length};
use crate::hexadecimal::{hexadecimal_into, hexadecimal_length};
use crate::number::is_number;
use crate::text::{text_into, text_length};
use plain_data::{Buffer, OutOfMemory};
use sql_cells::CellKind;
use thiserror::Error;

/// A cell of a numeric column isn't a number.
#[derive(Clone, Copy, Debug, PartialEq, Eq, Error)]
#[error("not a number")]
pub struct NotANumber;

/// Why a cell's literal couldn't be appended.
#[derive(Clone, Copy, Debug, PartialEq, Eq, Error)]
pub enum CellFault {
    /// The cell of a numeric column isn't a number.
    #[error("not a number")]
    NotANumber,
    /// Memory ran out.
    #[error("out of memory")]
    OutOfMemory,
}

/// How many bytes the literal of a cell of at most 64 MiB has. It is refused exactly where
/// [`cell_into`] finds that the cell isn't a number. Takes no memory.
#[tactic(auto, using(crate::proofs::Growth::null_literal, crate::proofs::Growth::null_has))]
pub fn cell_length(kind: CellKind, cell: Option<&[u8]>) -> Result<usize, NotANumber>
    requires { IfSome cell (λ bytes. length bytes.now ≤ 67108864) }
    ensures ok { IfOk result (λ size. size ≡ length (literal kind (option_copied cell.entry))) }
    ensures taken { is_ok result ≡ has_literal kind (option_copied cell.entry) }
{
    let Some(bytes) = cell else {
        return Ok(4);
    };
    match kind {
        CellKind::Number => {
            if !is_number(bytes) {
                return Err(NotANumber);
            }
            Ok(bytes.len())
        }
        CellKind::Text => Ok(text_length(bytes)),
        CellKind::Hex => Ok(hexadecimal_length(bytes)),
        CellKind::Converted => Ok(converted_length(bytes)),
    }
}

// Appends bytes as they are.
#[inline]
fn bytes_into(bytes: &[u8], out: &mut Buffer) -> Result<(), OutOfMemory>
    ensures ok { OnOk result (out.new.bytes ≡ out.old.bytes ++ bytes.now) }
    ensures err { OnErr result (out.new ≡ out.old) }
    ensures room { TakesRoom result out.old.spare out.new.spare bytes.now }
{
    out.reserve(bytes.len())?;
    out.push(bytes);
    Ok(())
}

/// Appends the literal of a cell: NULL, a number as it stands, text between single quotes with its
/// special bytes escaped, hexadecimal digits between X' and a quote, or a text of JSON as such a
/// text between `CONVERT(` and ` USING utf8mb4)` (MySQL 8.0 Reference Manual, 11.1.1 "String
/// Literals", 11.1.2 "Numeric Literals", 11.1.4 "Hexadecimal Literals", 14.10 "Cast Functions and
/// Operators"). It is refused where the cell of a numeric column isn't a number, and for want of
/// memory, and leaves the buffer as it was then. Where the room is there it takes no memory.
#[inline]
#[tactic(auto, using(crate::proofs::Growth::null_literal, crate::proofs::Growth::null_has))]
pub fn cell_into(kind: CellKind, cell: Option<&[u8]>, out: &mut Buffer) -> Result<(), CellFault>
    ensures ok { let written = literal kind (option_copied cell.entry) in
        OnOk result (out.new.bytes ≡ out.old.bytes ++ written) }
    ensures not_a_number { IsErrOf result CellFault.NotANumber ↔
        (has_literal kind (option_copied cell.entry) ≡ false) }
    ensures out_of_memory { IsErrOf result CellFault.OutOfMemory →
        has_literal kind (option_copied cell.entry) ≡ true }
    ensures err { OnErr result (out.new ≡ out.old) }
    ensures room { has_literal kind (option_copied cell.entry) ≡ true →
        TakesRoom result out.old.spare out.new.spare (literal kind (option_copied cell.entry)) }
{
    let appended = match (kind, cell) {
        (_, None) => bytes_into(b"NULL", out),
        (CellKind::Number, Some(bytes)) => {
            if !is_number(bytes) {
                return Err(CellFault::NotANumber);
            }
            bytes_into(bytes, out)
        }
        (CellKind::Text, Some(bytes)) => text_into(bytes, out),
        (CellKind::Hex, Some(bytes)) => hexadecimal_into(bytes, out),
        (CellKind::Converted, Some(bytes)) => converted_into(bytes, out),
    };
    appended.map_err(|_| CellFault::OutOfMemory)
}
