//! The cell of the literal in front.
ghost use Rattle.std.specs.Prelude.{◌≡◌, ◌+◌, ◌≤◌, ℕ, take, IfOk, IsErrOf};
ghost use Rattle.hex.specs.Hex.{decode_pairs};
ghost use Rattle.grammar.specs.Language.{Longest, Absent};
ghost use Rattle.sql_cells.specs.Cell.{bytes_of};
ghost use Rattle.sql_cells.specs.Spelling.{Literal, cell_of, hex_bytes, inside};

use crate::escapes::unescape;
use crate::reading::skip::literal_skip;
use plain_data::{Bytes, OutOfMemory};
use sql_cells::Cell;
use std::alloc::Global;
use thiserror::Error;

/// Why no literal was read.
#[derive(Clone, Copy, Debug, PartialEq, Eq, Error)]
pub enum LiteralFault {
    /// No prefix is a literal. The place is the length of the longest prefix that begins one.
    #[error("not a literal, from byte {0} on")]
    NotALiteral(usize),
    /// Memory ran out.
    #[error("out of memory")]
    OutOfMemory,
}

// The bytes without the `first` first and the `last` last ones.
#[inline]
fn inside(first: usize, last: usize, text: &[u8]) -> &[u8]
    requires { first + last ≤ 25 }
    ensures { result.now ≡ inside first last text.now }
{
    if text.len() <= first + last {
        return &[];
    }
    &text[first..text.len() - last]
}

// The bytes that pairs of digits stand for.
fn bytes_of_digits(alloc: Global, digits: &[u8]) -> Result<Bytes, OutOfMemory>
    ensures { IfOk result (λ made. made ≡ hex_bytes (decode_pairs 0 digits.now)) }
{
    match hex::decode(alloc, digits) {
        Ok(bytes) => Ok(Bytes::from_vec(alloc, bytes)),
        // A literal's digits are pairs, so that only memory can be wanting.
        Err(_) => Err(OutOfMemory),
    }
}

// The cell that a literal spells.
fn cell_of(alloc: Global, text: &[u8]) -> Result<Cell, OutOfMemory>
    ensures { IfOk result (λ cell. bytes_of cell ≡ cell_of text.now) }
{
    match text {
        [] | [b'N', ..] => Ok(Cell::Null),
        [b'\'', ..] => Ok(Cell::Value(unescape(alloc, inside(1, 1, text))?)),
        [b'X', ..] => Ok(Cell::Value(bytes_of_digits(alloc, inside(2, 1, text))?)),
        [b'C', ..] => Ok(Cell::Value(unescape(alloc, inside(9, 16, text))?)),
        _ => Ok(Cell::Value(Bytes::of(alloc, text)?)),
    }
}

/// The cell that the longest literal in front spells, and how many bytes that literal has. It is
/// refused where no prefix is a literal, with the place where the bytes leave the literals, and for
/// want of memory. NULL is [`Cell::Null`], and never an empty value (MySQL 8.0 Reference Manual,
/// 11.1.7 "NULL Values"). Memory is taken for the cell's bytes alone.
pub fn literal_read(alloc: Global, bytes: &[u8]) -> Result<(Cell, usize), LiteralFault>
    ensures ok { IfOk result (λ read. Longest Literal bytes.now read.1) }
    ensures cell { IfOk result (λ read. bytes_of read.0 ≡ cell_of (take read.1 bytes.now)) }
    ensures not_a_literal { (place : ℕ) →
        IsErrOf result (LiteralFault.NotALiteral place) → Absent Literal bytes.now place }
    ensures out_of_memory { IsErrOf result LiteralFault.OutOfMemory →
        (size : ℕ) × Longest Literal bytes.now size }
{
    let size = literal_skip(bytes).map_err(LiteralFault::NotALiteral)?;
    let cell = cell_of(alloc, &bytes[..size]).map_err(|_| LiteralFault::OutOfMemory)?;
    Ok((cell, size))
}
