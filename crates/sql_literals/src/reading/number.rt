//! Readers of numbers: an optional minus, digits, and maybe a point and digits.
ghost use Rattle.std.specs.Prelude.{Ok};
ghost use Rattle.grammar.specs.Language.{Reads, Then};
ghost use Rattle.sql_cells.specs.Number.{Digits, Sign, Point, Fraction, Number};

use crate::number::digit_count;
use grammar::{after, first_byte, optional, read_fixed};

#[inline]
fn read_digits(bytes: &[u8]) -> Result<usize, usize>
    ensures { Reads Digits bytes.now result }
{
    let size = digit_count(bytes);
    if size == 0 { Err(0) } else { Ok(size) }
}

#[inline]
#[tactic(auto, using(crate::proofs::NumberReads::sign_there, crate::proofs::NumberReads::sign_none))]
fn sign_size(bytes: &[u8]) -> usize
    ensures { Reads Sign bytes.now (Ok result) }
{
    if first_byte(bytes) == b'-' { 1 } else { 0 }
}

// A sign and digits.
pub(crate) fn read_whole(bytes: &[u8]) -> Result<usize, usize>
    ensures { Reads (Then Sign Digits) bytes.now result }
{
    let sign = sign_size(bytes);
    after(sign, read_digits(&bytes[sign..]))
}

// A point and digits.
pub(crate) fn read_point(bytes: &[u8]) -> Result<usize, usize>
    ensures { Reads Point bytes.now result }
{
    let point = read_fixed(bytes, b".")?;
    after(point, read_digits(&bytes[point..]))
}

fn read_fraction(bytes: &[u8]) -> Result<usize, usize>
    ensures { Reads Fraction bytes.now result }
{
    optional(read_point(bytes))
}

pub(crate) fn read_number(bytes: &[u8]) -> Result<usize, usize>
    ensures { Reads Number bytes.now result }
{
    let whole = read_whole(bytes)?;
    after(whole, read_fraction(&bytes[whole..]))
}
