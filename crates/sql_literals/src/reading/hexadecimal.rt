//! Readers of hexadecimal literals.
ghost use Rattle.std.specs.Prelude.{◌≡◌};
ghost use Rattle.hex.specs.Hex.{is_hex_digit};
ghost use Rattle.grammar.specs.Language.{Reads, Many};
ghost use Rattle.sql_cells.specs.Spelling.{Pair, OpenedHex, Hex};

use grammar::{after, read_fixed};

#[inline]
fn is_hex_digit(byte: u8) -> bool
    ensures { result ≡ is_hex_digit byte }
{
    byte.is_ascii_hexdigit()
}

// Two digits.
#[inline]
#[tactic(auto, using(crate::proofs::HexReads::pair_none, crate::proofs::HexReads::pair_half, crate::proofs::HexReads::pair_whole))]
fn read_pair(bytes: &[u8]) -> Result<usize, usize>
    ensures { Reads Pair bytes.now result }
{
    if bytes.len() == 0 || !is_hex_digit(bytes[0]) {
        return Err(0);
    }
    if bytes.len() == 1 || !is_hex_digit(bytes[1]) {
        return Err(1);
    }
    Ok(2)
}

fn read_pairs(bytes: &[u8]) -> Result<usize, usize>
    ensures { Reads (Many Pair) bytes.now result }
{
    let mut at = 0;
    'pairs: loop {
        match read_pair(&bytes[at..]) {
            Ok(size) => at += size,
            Err(0) => return Ok(at),
            Err(place) => return Err(at + place),
        }
    }
}

fn read_opened(bytes: &[u8]) -> Result<usize, usize>
    ensures { Reads OpenedHex bytes.now result }
{
    let open = read_fixed(bytes, b"X'")?;
    after(open, read_pairs(&bytes[open..]))
}

pub(crate) fn read_hexadecimal(bytes: &[u8]) -> Result<usize, usize>
    ensures { Reads Hex bytes.now result }
{
    let opened = read_opened(bytes)?;
    after(opened, read_fixed(&bytes[opened..], b"'"))
}
