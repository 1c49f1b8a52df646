//! The reader of literals of every kind.
ghost use Rattle.grammar.specs.Language.{Reads};
ghost use Rattle.sql_cells.specs.Spelling.{Null, Literal};

use crate::reading::converted::read_converted;
use crate::reading::hexadecimal::read_hexadecimal;
use crate::reading::number::read_number;
use crate::reading::text::read_text;
use grammar::{first_byte, read_fixed};

#[tactic(auto, unfolding(sql_cells::specs::Spelling::Null))]
pub(crate) fn read_null(bytes: &[u8]) -> Result<usize, usize>
    ensures { Reads Null bytes.now result }
{
    read_fixed(bytes, b"NULL")
}

/// Reads a literal as far as the bytes go along with one: how many bytes it has, or the place where
/// they leave the literals, which is the length of the longest prefix that begins one (MySQL 8.0
/// Reference Manual, 11.1 "Literal Values"). It is for readers inside a grammar: it refuses `1.x`,
/// whose digits wanted digits after the point, and `'a''x`, whose second part isn't closed. What
/// only looks for the literal in front calls [`literal_skip`](crate::literal_skip). Takes no memory.
pub fn read_literal(bytes: &[u8]) -> Result<usize, usize>
    ensures { Reads Literal bytes.now result }
{
    match first_byte(bytes) {
        b'N' => read_null(bytes),
        b'\'' => read_text(bytes),
        b'X' => read_hexadecimal(bytes),
        b'C' => read_converted(bytes),
        _ => read_number(bytes),
    }
}
