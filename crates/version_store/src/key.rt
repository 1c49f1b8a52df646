//! The keys of rows.
ghost use Rattle.std.specs.Prelude.{◌≡◌, ◌≤◌, ◌^◌, ◌+◌, ◌-◌, ◌*◌, min, neg_ℤ, pos};
ghost use Rattle.plain_data.specs.Byte.{digits_value, is_digit};
ghost use Rattle.std.specs.List.{list_all};
ghost use Rattle.sql_cells.specs.Number.{is_digits};
ghost use Rattle.honest_server.specs.Columns.{integer_of};
ghost use Rattle.version_store.specs.Key.{cell_key, cell_place, key_at, negative_of, positive_of};
ghost use Rattle.version_store.specs.Read.{within_i128};

use object_forms::Column;
use server_model::plain_count;
use sql_cells::Cell;

// The greatest magnitude of a number of 128 bits, and one more.
const BEYOND: u128 = 170_141_183_460_469_231_731_687_303_715_884_105_729;

// The tenth part of BEYOND: ten times a greater number is past it.
const TENTH: u128 = 17_014_118_346_046_923_173_168_730_371_588_410_572;

// At which place of a row the cell of this column stands.
pub(crate) fn cell_place(columns: &[Column], index: u32) -> usize
    ensures { result ≡ cell_place columns.now index }
{
    let end = columns.len().min(index as usize);
    plain_count(&columns[..end])
}

// The key of a row whose cell stands at this place; None where that isn't a number of 128 bits.
pub(crate) fn key_at(row: &[Cell], place: usize) -> Option<i128>
    ensures { result ≡ key_at place row.now }
{
    match row.get(place) {
        None => None,
        Some(cell) => key_of(cell),
    }
}

fn key_of(cell: &Cell) -> Option<i128>
    ensures { result ≡ cell_key cell.now }
{
    match cell.as_slice() {
        None => None,
        Some(bytes) => number_of(bytes),
    }
}

fn number_of(bytes: &[u8]) -> Option<i128>
    ensures { result ≡ within_i128 (integer_of bytes.now) }
{
    match bytes {
        [] => None,
        [b'-', digits @ ..] => negative_of(digits),
        _ => positive_of(bytes),
    }
}

fn negative_of(digits: &[u8]) -> Option<i128>
    ensures { result ≡ negative_of digits.now }
{
    if !is_digits(digits) {
        return None;
    }
    let size = size_of(digits);
    if size < BEYOND {
        Some(negative(size))
    } else {
        None
    }
}

fn positive_of(digits: &[u8]) -> Option<i128>
    ensures { result ≡ positive_of digits.now }
{
    if !is_digits(digits) {
        return None;
    }
    let size = size_of(digits);
    if size < BEYOND - 1 {
        Some(size as i128)
    } else {
        None
    }
}

fn is_digits(bytes: &[u8]) -> bool
    ensures { result ≡ is_digits bytes.now }
{
    match bytes {
        [] => false,
        _ => are_digits(bytes),
    }
}

fn are_digits(bytes: &[u8]) -> bool
    ensures { result ≡ list_all is_digit bytes.now }
{
    for byte in bytes {
        if !is_digit(*byte) {
            return false;
        }
    }
    true
}

fn is_digit(byte: u8) -> bool
    ensures { result ≡ is_digit byte }
{
    byte.is_ascii_digit()
}

// The number that digits spell, and BEYOND where it is greater.
#[tactic(auto, using(crate::proofs::Keys::sizes))]
fn size_of(digits: &[u8]) -> u128
    ensures { result ≡ min (digits_value digits.now) (2 ^ 127 + 1) }
{
    let mut size = 0;
    for digit in digits {
        size = with_digit(size, *digit);
    }
    size
}

// One digit more.
fn with_digit(size: u128, digit: u8) -> u128
    requires { size ≤ 2 ^ 127 + 1 }
    ensures { result ≡ min (size * 10 + (digit - 48)) (2 ^ 127 + 1) }
{
    if size > TENTH {
        return BEYOND;
    }
    BEYOND.min(size * 10 + u128::from(digit.saturating_sub(b'0')))
}

// The number of this size below 0.
fn negative(size: u128) -> i128
    requires { size ≤ 2 ^ 127 }
    ensures { result ≡ neg_ℤ (pos size) }
{
    if size == BEYOND - 1 {
        return i128::MIN;
    }
    -(size as i128)
}
