//! Readers of numbers.
ghost use Rattle.std.specs.Prelude.{◌≡◌, ◌+◌, ◌-◌, ◌*◌, ◌^◌, ◌<◌, ◌≤◌, take, decimal, IfNone, IfSome, IfOk};
ghost use Rattle.grammar.specs.Language.{Reads};
ghost use Rattle.statement_reading.specs.Parts.{Within, BoundText};
ghost use Rattle.statement_reading.specs.Readings.{number_size};

use grammar::first_byte;

// A number, and how many bytes write it.
#[derive(Clone, Copy)]
pub(crate) struct Number {
    pub(crate) value: u128,
    pub(crate) size: usize,
}

// The number with one more digit, if it may have that one and stays below the limit.
fn longer(value: u128, byte: u8, limit: u128) -> Option<u128>
    ensures none { IfNone result (48 ≤ byte → byte ≤ 57 → 0 < value →
        limit ≤ value * 10 + (byte - 48)) }
    ensures some { IfSome result (λ next. (48 ≤ byte) × (byte ≤ 57) × (0 < value)
        × (next ≡ value * 10 + (byte - 48)) × (next < limit)) }
{
    if value == 0 || byte < b'0' || byte > b'9' {
        return None;
    }
    let next = value.checked_mul(10)?.checked_add((byte - b'0') as u128)?;
    if next < limit { Some(next) } else { None }
}

// A number from the least one up to below the limit: without zeros in front.
pub(crate) fn read_number(bytes: &[u8], least: u8, limit: u128) -> Result<Number, usize>
    requires least { least ≤ 1 }
    requires some { 10 ≤ limit }
    ensures reads { Reads (Within least limit) bytes.now (number_size result) }
    ensures value { IfOk result (λ number. (take number.size bytes.now ≡ decimal number.value)
        × (least ≤ number.value) × (number.value < limit)) }
{
    let first = first_byte(bytes);
    if first < b'0' + least || first > b'9' {
        return Err(0);
    }
    let mut value = (first - b'0') as u128;
    let mut size = 1;
    'digits: while size < bytes.len() {
        let Some(next) = longer(value, bytes[size], limit) else {
            return Ok(Number { value, size });
        };
        value = next;
        size += 1;
    }
    Ok(Number { value, size })
}

// A number of 64 bits.
pub(crate) fn read_count(bytes: &[u8]) -> Result<usize, usize>
    ensures { Reads (Within 0 (2 ^ 64)) bytes.now result }
{
    let number = read_number(bytes, 0, 1 << 64)?;
    Ok(number.size)
}

// A number of 128 bits, with its sign.
pub(crate) fn read_bound(bytes: &[u8]) -> Result<usize, usize>
    ensures { Reads BoundText bytes.now result }
{
    if first_byte(bytes) != b'-' {
        let number = read_number(bytes, 0, 1 << 127)?;
        return Ok(number.size);
    }
    match read_number(&bytes[1..], 1, (1 << 127) + 1) {
        Ok(number) => Ok(1 + number.size),
        Err(place) => Err(1 + place),
    }
}
