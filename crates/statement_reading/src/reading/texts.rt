//! Readers of texts between single quotes, as they are written: the special bytes after backslashes,
//! and no others.
ghost use Rattle.std.specs.Prelude.{◌≡◌};
ghost use Rattle.grammar.specs.Language.{Reads, Many};
ghost use Rattle.statement_reading.specs.Parts.{is_own, is_written_letter, WrittenByte, OpenedText, WrittenText};

use grammar::{after, read_fixed};

#[inline]
fn is_own(byte: u8) -> bool
    ensures { result ≡ is_own byte }
{
    match byte {
        0 | b'\n' | b'\r' | 26 | b'"' | b'\'' | b'\\' => false,
        _ => true,
    }
}

#[inline]
fn is_written_letter(byte: u8) -> bool
    ensures { result ≡ is_written_letter byte }
{
    match byte {
        b'0' | b'n' | b'r' | b'Z' | b'"' | b'\'' | b'\\' => true,
        _ => false,
    }
}

// One byte between quotes, or a backslash and a letter.
#[inline]
#[tactic(auto, using(crate::proofs::TextReads::byte_end, crate::proofs::TextReads::byte_own, crate::proofs::TextReads::byte_other, crate::proofs::TextReads::byte_escape, crate::proofs::TextReads::byte_broken))]
fn read_written_byte(bytes: &[u8]) -> Result<usize, usize>
    ensures { Reads WrittenByte bytes.now result }
{
    if bytes.len() == 0 {
        return Err(0);
    }
    if is_own(bytes[0]) {
        return Ok(1);
    }
    if bytes[0] != b'\\' {
        return Err(0);
    }
    if bytes.len() == 1 || !is_written_letter(bytes[1]) {
        return Err(1);
    }
    Ok(2)
}

fn read_written_bytes(bytes: &[u8]) -> Result<usize, usize>
    ensures { Reads (Many WrittenByte) bytes.now result }
{
    let mut at = 0;
    'bytes: loop {
        match read_written_byte(&bytes[at..]) {
            Ok(size) => at += size,
            Err(0) => return Ok(at),
            Err(place) => return Err(at + place),
        }
    }
}

fn read_opened_text(bytes: &[u8]) -> Result<usize, usize>
    ensures { Reads OpenedText bytes.now result }
{
    let open = read_fixed(bytes, b"'")?;
    after(open, read_written_bytes(&bytes[open..]))
}

pub(crate) fn read_written_text(bytes: &[u8]) -> Result<usize, usize>
    ensures { Reads WrittenText bytes.now result }
{
    let opened = read_opened_text(bytes)?;
    after(opened, read_fixed(&bytes[opened..], b"'"))
}
