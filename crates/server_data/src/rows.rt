//! Rows as lists of cells.
ghost use Rattle.std.specs.Prelude.{◌≡◌, ◌∷◌, ◌++◌, [], IfOk, OnOk, OnErr};
ghost use Rattle.std.specs.Borrow.{sem};
ghost use Rattle.server_data.specs.Lending.{lends_cells};

use plain_data::{OutOfMemory, Plain, PlainList};
use sql_cells::Cell;
use std::alloc::Global;
use std::marker::Model;

/// The cells of a row, one for each plain column of its table, in their order. It keeps its
/// allocator.
#[derive(Drop)]
pub struct CellList {
    alloc: Global,
    cells: PlainList<Cell>,
}

impl Model for CellList {
    ghost use Rattle.std.specs.Prelude.{List};
    ghost use Rattle.sql_cells.specs.declared.cell.Cell.{Cell};

    ghost Value = { List Cell };

    ghost view = { λ row. row.cells };
}

impl CellList {
    /// The row without cells. Takes no memory.
    pub fn new(alloc: Global) -> CellList
        ensures { result ≡ [] }
    {
        CellList {
            alloc,
            cells: PlainList::new(alloc),
        }
    }

    /// Its cells. Takes no memory.
    #[inline]
    pub fn as_slice(&self) -> &[Cell]
        ensures { result.now ≡ self.now }
    {
        self.cells.as_slice()
    }

    /// Its cells, to be written over. Takes no memory.
    pub fn as_mut_slice(&mut self) -> &mut [Cell]
        ensures* writes_back { sem 𝓛 (lends_cells self.entry result) }
        ensures value { result.now ≡ self.old }
    {
        self.cells.as_mut_slice()
    }

    /// Puts a cell at the end. A refusal leaves the row as it was, and the cell is given up.
    pub fn push(&mut self, cell: Cell) -> Result<(), OutOfMemory>
        ensures ok { OnOk result (self.new ≡ self.old ++ cell ∷ []) }
        ensures err { OnErr result (self.new ≡ self.old) }
    {
        self.cells.push(cell)
    }

    /// An equal row. It is refused only for want of memory.
    pub fn copy(&self) -> Result<CellList, OutOfMemory>
        ensures { IfOk result (λ made. made ≡ self.now) }
    {
        let mut made = CellList::new(self.alloc);
        for cell in self.cells.as_slice() {
            made.push(cell.copy()?)?;
        }
        Ok(made)
    }
}

impl Plain for CellList {
    fn duplicate(&self) -> Result<CellList, OutOfMemory> {
        self.copy()
    }
}

/// A list of rows.
pub type RowList = PlainList<CellList>;
