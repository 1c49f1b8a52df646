//! What stands between quotes, as it is read.
ghost use Rattle.std.specs.Prelude.{◌≡◌, ◌<◌, ◌≤◌, ◌∷◌, length, drop, IfOk};
ghost use Rattle.sql_cells.specs.Spelling.{letter_value, text_value};

use crate::special::plain_until;
use plain_data::{Bytes, OutOfMemory};
use std::alloc::Global;

// The byte that a letter after a backslash stands for.
#[inline]
fn letter_value(letter: u8) -> u8
    ensures { result ≡ letter_value letter }
{
    match letter {
        b'0' => 0,
        b'b' => 8,
        b'n' => b'\n',
        b'r' => b'\r',
        b'Z' => 26,
        _ => letter,
    }
}

// The first byte that some bytes stand for, and how many of them spell it.
#[inline]
#[tactic(auto, using(crate::proofs::Units::last_unit, crate::proofs::Units::escape_unit, crate::proofs::Units::quote_unit, crate::proofs::Units::other_unit))]
fn first_unit(bytes: &[u8]) -> (u8, usize)
    requires { 0 < length bytes.now }
    ensures unit { text_value bytes.now ≡ result.0 ∷ text_value (drop result.1 bytes.now) }
    ensures some { 0 < result.1 }
    ensures within { result.1 ≤ length bytes.now }
{
    let byte = bytes[0];
    if bytes.len() == 1 {
        return (byte, 1);
    }
    match byte {
        b'\\' => (letter_value(bytes[1]), 2),
        b'\'' => (byte, 2),
        _ => (byte, 1),
    }
}

/// What the bytes between the quotes of a string literal stand for: a backslash and a letter for
/// one byte (MySQL 8.0 Reference Manual, 11.1.1 "String Literals", table 11.1), two quotes for
/// one, any other byte for itself. It is refused only for want of memory, which it takes once, for
/// as many bytes as there are between the quotes.
pub fn unescape(alloc: Global, inner: &[u8]) -> Result<Bytes, OutOfMemory>
    ensures { IfOk result (λ made. made ≡ text_value inner.now) }
{
    let mut made = Vec::with_capacity(alloc, inner.len())?;
    let mut done = 0;
    'runs: loop {
        let to = plain_until(inner, done);
        made.extend_from_slice(&inner[done..to])?;
        if to == inner.len() {
            return Ok(Bytes::from_vec(alloc, made));
        }
        let (byte, size) = first_unit(&inner[to..]);
        made.push(byte)?;
        done = to + size;
    }
}
