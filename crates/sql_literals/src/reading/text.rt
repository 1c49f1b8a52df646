//! Readers of strings: parts from quote to quote, one after another.
ghost use Rattle.std.specs.Prelude.{◌≡◌};
ghost use Rattle.grammar.specs.Language.{Reads, Many};
ghost use Rattle.sql_cells.specs.Spelling.{is_escape_letter, Inner, Opened, Quoted, Text};

use crate::special::plain_until;
use grammar::{after, read_fixed};

#[inline]
fn is_letter(byte: u8) -> bool
    ensures { result ≡ is_escape_letter byte }
{
    match byte {
        b'0' | b'b' | b'n' | b'r' | b'Z' | b'"' | b'\'' | b'\\' => true,
        _ => false,
    }
}

// One byte between quotes, or a backslash and a letter.
#[inline]
#[tactic(auto, using(crate::proofs::TextReads::inner_end, crate::proofs::TextReads::inner_plain, crate::proofs::TextReads::inner_quote, crate::proofs::TextReads::inner_escape, crate::proofs::TextReads::inner_broken))]
fn read_inner(bytes: &[u8]) -> Result<usize, usize>
    ensures { Reads Inner bytes.now result }
{
    if bytes.len() == 0 || bytes[0] == b'\'' {
        return Err(0);
    }
    if bytes[0] != b'\\' {
        return Ok(1);
    }
    if bytes.len() == 1 || !is_letter(bytes[1]) {
        return Err(1);
    }
    Ok(2)
}

// What stands before the next quote. Runs of plain bytes are passed over whole.
fn read_inners(bytes: &[u8]) -> Result<usize, usize>
    ensures { Reads (Many Inner) bytes.now result }
{
    let mut at = 0;
    'runs: loop {
        let to = plain_until(bytes, at);
        match read_inner(&bytes[to..]) {
            Ok(size) => at = to + size,
            Err(0) => return Ok(to),
            Err(place) => return Err(to + place),
        }
    }
}

fn read_opened(bytes: &[u8]) -> Result<usize, usize>
    ensures { Reads Opened bytes.now result }
{
    let open = read_fixed(bytes, b"'")?;
    after(open, read_inners(&bytes[open..]))
}

pub(crate) fn read_quoted(bytes: &[u8]) -> Result<usize, usize>
    ensures { Reads Quoted bytes.now result }
{
    let opened = read_opened(bytes)?;
    after(opened, read_fixed(&bytes[opened..], b"'"))
}

// The parts after the first.
fn read_more(bytes: &[u8]) -> Result<usize, usize>
    ensures { Reads (Many Quoted) bytes.now result }
{
    let mut at = 0;
    'parts: loop {
        match read_quoted(&bytes[at..]) {
            Ok(size) => at += size,
            Err(0) => return Ok(at),
            Err(place) => return Err(at + place),
        }
    }
}

/// Reads a string as far as the bytes go along with one: how many bytes it has, or the place where
/// they leave the strings (MySQL 8.0 Reference Manual, 11.1.1 "String Literals"). It is for readers
/// inside a grammar: where a quote follows, another part has to be read. Takes no memory.
pub fn read_text(bytes: &[u8]) -> Result<usize, usize>
    ensures { Reads Text bytes.now result }
{
    let first = read_quoted(bytes)?;
    after(first, read_more(&bytes[first..]))
}
