//! The lines of a position, as they are read.
ghost use Rattle.std.specs.Prelude.{◌≡◌, IfOk, IfErr, MatchOption};
ghost use Rattle.std.specs.List.{list_all};
ghost use Rattle.folder_forms.specs.Metadata.{is_printable};
ghost use Rattle.metadata_ini.specs.Reading.{HasNoNumberLine, HasNoPrintableLine, IsFaultAfterHead, IsNumberLine, IsPosition, IsPrintableLine, position_with};

use crate::decimals::read_decimal;
use crate::fault::MetadataFault;
use crate::heads::{after_word, value_line};
use plain_data::{Bytes, OutOfMemory};
use server_data::Position;
use std::alloc::Global;

// Whether all bytes are of ASCII and can be printed.
fn all_printable(text: &[u8]) -> bool
    ensures { result ≡ list_all is_printable text.now }
{
    text.iter().all(|byte| b' ' <= *byte && *byte <= b'~')
}

// The value of the first line, which begins with a word and has printable bytes, and what follows.
fn printable_line<'a>(word: &[u8], text: &'a [u8]) -> Option<(&'a [u8], &'a [u8])>
    ensures { MatchOption result (HasNoPrintableLine word.now text.now)
        (λ r. IsPrintableLine word.now text.now r.0.now r.1.now) }
{
    let Some((value, after)) = value_line(word, text) else {
        return None;
    };
    if all_printable(value) {
        Some((value, after))
    } else {
        None
    }
}

// The number of the first line, which begins with a word, and what follows.
fn number_line<'a>(word: &[u8], text: &'a [u8]) -> Option<(u64, &'a [u8])>
    ensures { MatchOption result (HasNoNumberLine word.now text.now)
        (λ r. IsNumberLine word.now text.now r.0 r.1.now) }
{
    let Some((value, after)) = value_line(word, text) else {
        return None;
    };
    let Some(number) = read_decimal(value) else {
        return None;
    };
    Some((number, after))
}

// The position of these parts.
fn position_of(
    alloc: Global,
    file: &[u8],
    offset: u64,
    gtid: &[u8],
) -> Result<Position, OutOfMemory>
    ensures { IfOk result (λ made. made ≡ position_with file.now offset gtid.now) }
{
    Ok(Position {
        file: Bytes::of(alloc, file)?,
        offset,
        gtid: Bytes::of(alloc, gtid)?,
    })
}

/// The position, where there is one, and what follows the line before the files.
pub(crate) fn read_position(
    alloc: Global,
    text: &[u8],
) -> Result<(Option<Position>, &[u8]), MetadataFault>
    ensures ok { IfOk result (λ r. IsPosition text.now r.0 r.1.now) }
    ensures err { IfErr result (IsFaultAfterHead text.now) }
{
    if let Some(rest) = after_word(b"[files]\n", text) {
        return Ok((None, rest));
    }
    let Some(rest) = after_word(b"[position]\n", text) else {
        return Err(MetadataFault::BadLine(5));
    };
    let Some((file, rest)) = printable_line(b"file=", rest) else {
        return Err(MetadataFault::BadLine(6));
    };
    if file.len() == 0 {
        return Err(MetadataFault::BadLine(6));
    }
    let Some((offset, rest)) = number_line(b"offset=", rest) else {
        return Err(MetadataFault::BadLine(7));
    };
    let Some((gtid, rest)) = printable_line(b"gtid=", rest) else {
        return Err(MetadataFault::BadLine(8));
    };
    let Some(rest) = after_word(b"[files]\n", rest) else {
        return Err(MetadataFault::BadLine(9));
    };
    let position = position_of(alloc, file, offset, gtid)?;
    Ok((Some(position), rest))
}
