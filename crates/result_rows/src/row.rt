//! Rows, and their cells one after the other.
ghost use Rattle.std.specs.Prelude.{◌≡◌, ◌<◌, length, is_some, IsSome, slice_index_or, MatchOption, Some, None, option_map, option_copied};
ghost use Rattle.wire_forms.specs.Row.{cell_in_front, cells_of};

use crate::fields::string_of;
use std::marker::Model;

/// A row of a text result set, in the bytes of its message. (MySQL source documentation,
/// `ProtocolText::ResultsetRow`.)
#[derive(Clone, Copy)]
pub struct Row<'a> {
    payload: &'a [u8],
    columns: u32,
    place: u64,
    ghost readable: { IsSome (cells_of columns payload.now) },
}

impl<'a> Row<'a> {
    ghost use Rattle.result_rows.specs.RowCells.{row_cells};

    // The row that so many bytes are, where they are known to be one: nothing is read.
    #[inline]
    pub(crate) fn known(columns: u32, payload: &'a [u8], place: u64) -> Row<'a>
        requires { IsSome (cells_of columns payload.now) }

        ensures cells { cells_of columns payload.now ≡ Some (row_cells result) }
        ensures place { result.place ≡ place }
    {
        Row {
            payload,
            columns,
            place,
        }
    }

    /// The number of its cells. Takes no memory.
    #[inline]
    #[tactic(auto, using(crate::proofs::Walks::length_cells))]
    pub fn columns(&self) -> u32
        ensures { result ≡ length (row_cells self.now) }
    {
        self.columns
    }

    /// The number of stream bytes before the packet of its message. Takes no memory.
    #[inline]
    pub fn place(&self) -> u64
        ensures { result ≡ self.now.place }
    {
        self.place
    }

    /// The cell of this number, counted from 0; `None` where it is NULL. It is found by a walk over
    /// those before it. Takes no memory.
    pub fn cell(&self, i: u32) -> Option<&'a [u8]>
        requires there { i < length (row_cells self.now) }

        ensures { option_copied result ≡ slice_index_or (row_cells self.now) i None }
    {
        self.cells().nth(i as usize).flatten()
    }

    /// The cells in order, each `None` where it is NULL. Takes no memory.
    #[inline]
    pub fn cells(&self) -> Cells<'a>
        ensures { result ≡ row_cells self.now }
    {
        Cells {
            rest: self.payload,
            left: self.columns,
        }
    }
}

/// The cells of a row that are left, lent out of the bytes of its message.
#[derive(Drop)]
pub struct Cells<'a> {
    rest: &'a [u8],
    left: u32,
}

impl<'a> Model for Cells<'a> {
    ghost use Rattle.std.specs.Prelude.{List, IsSome};
    ghost use Rattle.plain_data.specs.Cell.{Cell};
    ghost use Rattle.wire_forms.specs.Row.{cells_of, cells_or_none};

    ghost Value = { List Cell };

    ghost view = { λ cells. cells_or_none cells.left cells.rest.now };

    ghost invariant = { λ cells. IsSome (cells_of cells.left cells.rest.now) };
}

impl<'a> Iterator for Cells<'a> {
    type Item = Option<&'a [u8]>;

    ghost use Rattle.std.specs.Prelude.{option_map};
    ghost use Rattle.std.specs.Iterator.{YieldsFirstBy, item_count};

    ghost next_gives = { YieldsFirstBy (option_map (λ bytes. bytes.now)) (λ cells. cells) };

    ghost remaining = { item_count (λ cells. cells) };

    #[inline]
    #[tactic(auto, using(crate::proofs::Walks::split_cells))]
    fn next(&mut self) -> Option<Option<&'a [u8]>> {
        if self.left == 0 {
            return None;
        }
        let (cell, rest) = cell_of(self.rest)?;
        self.rest = rest;
        self.left -= 1;
        Some(cell)
    }
}

// The cell that begins the bytes, and the rest.
#[inline]
fn cell_of(bytes: &[u8]) -> Option<(Option<&[u8]>, &[u8])>
    ensures { option_map (λ parts. (option_copied parts.0, parts.1.now)) result ≡
        cell_in_front bytes.now }
{
    if let [0xfb, rest @ ..] = bytes {
        return Some((None, rest));
    }
    let (cell, rest) = string_of(bytes)?;
    Some((Some(cell), rest))
}

// Whether the bytes are so many cells and nothing after them.
#[inline]
#[tactic(auto, using(crate::proofs::Walks::cells_of_next, crate::proofs::Walks::are_cells_next))]
pub(crate) fn are_cells(columns: u32, payload: &[u8]) -> bool
    ensures { result ≡ is_some (cells_of columns payload.now) }
{
    let mut rest = payload;
    for _ in 0..columns {
        let Some((_, later)) = cell_of(rest) else {
            return false;
        };
        rest = later;
    }
    rest.is_empty()
}
