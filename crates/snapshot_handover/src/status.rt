//! What the row of a status says.
ghost use Rattle.std.specs.Prelude.{◌≡◌, ◌≢◌, ◌<◌, ◌^◌, ℕ, true, false, decimal, IfOk, MatchOption};
ghost use Rattle.std.specs.List.{list_all};
ghost use Rattle.honest_server.specs.Answer.{without_line_feeds};
ghost use Rattle.honest_server.specs.WellFormed.{is_visible};
ghost use Rattle.result_rows.specs.RowCells.{row_cells};
ghost use Rattle.snapshot_handover.specs.Status.{SaysNoPosition, SaysPosition, are_written, is_file, is_visible_or_fed, position_of};

use itoa::Buffer as Digits;
use plain_data::{Bytes, OutOfMemory};
use result_rows::Row;
use server_data::Position;
use std::alloc::Global;

/// A position, lent out of the bytes of its row: line feeds may stand in its GTID set.
#[derive(Clone, Copy)]
pub(crate) struct Status<'a> {
    pub(crate) file: &'a [u8],
    pub(crate) offset: u64,
    pub(crate) gtid: &'a [u8],
}

// Whether the number is written so.
fn is_decimal(text: &[u8], number: u64) -> bool
    ensures yes { result ≡ true → text.now ≡ decimal number }
    ensures no { result ≡ false → text.now ≢ decimal number }
{
    let mut room = Digits::new();
    text == room.format(number).as_bytes()
}

// The number that is written so, without sign and without leading zeros.
fn read_decimal(text: &[u8]) -> Option<u64>
    ensures { MatchOption result ((number : ℕ) → number < 2 ^ 64 → text.now ≢ decimal number)
        (λ number. text.now ≡ decimal number) }
{
    let Ok(digits) = std::str::from_utf8(text) else {
        return None;
    };
    let Ok(number) = u64::from_str_radix(digits, 10) else {
        return None;
    };
    if is_decimal(text, number) {
        Some(number)
    } else {
        None
    }
}

// Whether a byte can stand on a line.
fn is_visible(byte: u8) -> bool
    ensures { result ≡ is_visible byte }
{
    byte >= 32 && byte <= 126
}

// Whether all bytes can.
fn are_visible(bytes: &[u8]) -> bool
    ensures { result ≡ list_all is_visible bytes.now }
{
    bytes.iter().all(|byte| is_visible(*byte))
}

// Whether a byte can, or is a line feed.
fn is_visible_or_fed(byte: u8) -> bool
    ensures { result ≡ is_visible_or_fed byte }
{
    byte == b'\n' || is_visible(byte)
}

// Whether all bytes but line feeds can.
fn are_visible_or_fed(bytes: &[u8]) -> bool
    ensures { result ≡ list_all is_visible_or_fed bytes.now }
{
    bytes.iter().all(|byte| is_visible_or_fed(*byte))
}

// Whether bytes are a file that can be written on a line.
fn is_file(bytes: &[u8]) -> bool
    ensures { result ≡ is_file bytes.now }
{
    !bytes.is_empty() && are_visible(bytes)
}

// Whether a file and a GTID set can be written on lines.
fn are_written(file: &[u8], gtid: &[u8]) -> bool
    ensures { result ≡ are_written file.now gtid.now }
{
    is_file(file) && are_visible_or_fed(gtid)
}

/// What a row says, where it says a position. Takes no memory.
pub(crate) fn status_of<'a>(row: &Row<'a>) -> Option<Status<'a>>
    ensures { MatchOption result (SaysNoPosition (row_cells row.now))
        (λ status. SaysPosition (row_cells row.now) (position_of status)) }
{
    if row.columns() < 5 {
        return None;
    }
    let file = row.cell(0)?;
    let offset = read_decimal(row.cell(1)?)?;
    let gtid = row.cell(4)?;
    if !are_written(file, gtid) {
        return None;
    }
    Some(Status { file, offset, gtid })
}

// The bytes without line feeds. It is refused only for want of memory.
fn without_line_feeds(alloc: Global, bytes: &[u8]) -> Result<Bytes, OutOfMemory>
    ensures { IfOk result (λ made. made ≡ without_line_feeds bytes.now) }
{
    let mut made = bytes.to_vec(alloc)?;
    made.retain(|byte| *byte != b'\n');
    Ok(Bytes::from_vec(alloc, made))
}

/// The position that a status says. It is refused only for want of memory.
pub(crate) fn position_of(alloc: Global, status: Status<'_>) -> Result<Position, OutOfMemory>
    ensures { IfOk result (λ made. made ≡ position_of status.entry) }
{
    let file = Bytes::of(alloc, status.file)?;
    let gtid = without_line_feeds(alloc, status.gtid)?;
    Ok(Position {
        file,
        offset: status.offset,
        gtid,
    })
}
