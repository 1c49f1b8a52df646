//! Whether kinds, bytes, cells and rows are equal.
ghost use Rattle.std.specs.Prelude.{◌≡◌, bytes_eq};
ghost use Rattle.server_data.specs.Equal.{cell_eq, kind_eq, kind_number, row_eq};

use object_forms::Kind;
use sql_cells::Cell;

pub(crate) fn is_kind(one: Kind, other: Kind) -> bool
    ensures { result ≡ kind_eq one other }
{
    kind_number(one) == kind_number(other)
}

fn kind_number(kind: Kind) -> u8
    ensures { result ≡ kind_number kind }
{
    match kind {
        Kind::Schema => 0,
        Kind::Table => 1,
        Kind::Procedure => 2,
        Kind::Function => 3,
        Kind::View => 4,
        Kind::Trigger => 5,
        Kind::Event => 6,
    }
}

pub(crate) fn are_bytes(one: &[u8], other: &[u8]) -> bool
    ensures { result ≡ bytes_eq one.now other.now }
{
    one == other
}

fn is_cell(one: &Cell, other: &Cell) -> bool
    ensures { result ≡ cell_eq one.now other.now }
{
    match (one, other) {
        (Cell::Null, Cell::Null) => true,
        (Cell::Value(one), Cell::Value(other)) => are_bytes(one.as_slice(), other.as_slice()),
        _ => false,
    }
}

pub(crate) fn is_row(one: &[Cell], other: &[Cell]) -> bool
    ensures { result ≡ row_eq one.now other.now }
{
    let mut left = one;
    let mut right = other;
    'cells: while let ([cell, cells @ ..], [facing, others @ ..]) = (left, right) {
        if !is_cell(cell, facing) {
            return false;
        }
        left = cells;
        right = others;
    }
    left.is_empty() && right.is_empty()
}
