//! The longest literal in front.
ghost use Rattle.grammar.specs.Language.{Longest, Skips, Many};
ghost use Rattle.sql_cells.specs.Number.{Fraction, Number};
ghost use Rattle.sql_cells.specs.Spelling.{Quoted, Text, Literal};

use crate::reading::converted::read_converted;
use crate::reading::hexadecimal::read_hexadecimal;
use crate::reading::literal::read_null;
use crate::reading::number::{read_point, read_whole};
use crate::reading::text::read_quoted;
use grammar::first_byte;

fn fraction_size(bytes: &[u8]) -> usize
    ensures { Longest Fraction bytes.now result }
{
    match read_point(bytes) {
        Ok(size) => size,
        Err(_) => 0,
    }
}

fn skip_number(bytes: &[u8]) -> Result<usize, usize>
    ensures { Skips Number bytes.now result }
{
    let whole = read_whole(bytes)?;
    Ok(whole + fraction_size(&bytes[whole..]))
}

// How long the parts from quote to quote in front are.
fn parts_size(bytes: &[u8]) -> usize
    ensures { Longest (Many Quoted) bytes.now result }
{
    let mut at = 0;
    'parts: loop {
        match read_quoted(&bytes[at..]) {
            Ok(size) => at += size,
            Err(_) => return at,
        }
    }
}

fn skip_text(bytes: &[u8]) -> Result<usize, usize>
    ensures { Skips Text bytes.now result }
{
    let first = read_quoted(bytes)?;
    Ok(first + parts_size(&bytes[first..]))
}

/// How many bytes the longest prefix has that is a literal, or, where no prefix is one, the place
/// where the bytes leave the literals: the length of the longest prefix that begins one. `1.x` has
/// the literal `1`, and `'a''x` has `'a'`. Takes no memory.
pub fn literal_skip(bytes: &[u8]) -> Result<usize, usize>
    ensures { Skips Literal bytes.now result }
{
    match first_byte(bytes) {
        b'N' => read_null(bytes),
        b'\'' => skip_text(bytes),
        b'X' => read_hexadecimal(bytes),
        b'C' => read_converted(bytes),
        _ => skip_number(bytes),
    }
}
