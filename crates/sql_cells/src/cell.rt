//! Cells of rows.
ghost use Rattle.std.specs.Prelude.{◌≡◌, IfOk, option_copied};

use plain_data::{Bytes, OutOfMemory};

/// A cell of a row.
#[derive(Debug, Drop)]
pub enum Cell {
    /// NULL.
    Null,
    /// Anything else, as its bytes.
    Value(Bytes),
}

impl Cell {
    ghost use Rattle.sql_cells.specs.Cell.{bytes_of};

    /// Its bytes, or None for NULL. Takes no memory.
    #[inline]
    pub fn as_slice(&self) -> Option<&[u8]>
        ensures { option_copied result ≡ bytes_of self.now }
    {
        match self {
            Cell::Null => None,
            Cell::Value(bytes) => Some(bytes.as_slice()),
        }
    }

    /// An equal cell. It is refused only for want of memory.
    pub fn copy(&self) -> Result<Cell, OutOfMemory>
        ensures { IfOk result (λ made. made ≡ self.now) }
    {
        match self {
            Cell::Null => Ok(Cell::Null),
            Cell::Value(bytes) => Ok(Cell::Value(bytes.copy()?)),
        }
    }
}
