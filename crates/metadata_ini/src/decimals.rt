//! Numbers below 2^64, in decimal.
ghost use Rattle.std.specs.Prelude.{◌≡◌, ◌≢◌, ◌<◌, ◌^◌, ◌++◌, ℕ, true, false, decimal, OnOk, MatchOption};

use crate::spelling::append;
use itoa::Buffer as Digits;
use plain_data::{Buffer, OutOfMemory};

/// Appends a number.
pub(crate) fn append_decimal(number: u64, out: &mut Buffer) -> Result<(), OutOfMemory>
    ensures ok { OnOk result (out.new.bytes ≡ out.old.bytes ++ decimal number) }
{
    let mut room = Digits::new();
    append(room.format(number).as_bytes(), out)
}

// Whether the number is written so.
fn is_decimal(text: &[u8], number: u64) -> bool
    ensures yes { result ≡ true → text.now ≡ decimal number }
    ensures no { result ≡ false → text.now ≢ decimal number }
{
    let mut room = Digits::new();
    text == room.format(number).as_bytes()
}

/// The number that is written so, without sign and without leading zeros.
pub(crate) fn read_decimal(text: &[u8]) -> Option<u64>
    ensures { MatchOption result ((number : ℕ) → number < 2 ^ 64 → text.now ≢ decimal number)
        (λ number. text.now ≡ decimal number) }
{
    let Ok(digits) = std::str::from_utf8(text) else {
        return None;
    };
    let Ok(number) = u64::from_str_radix(digits, 10) else {
        return None;
    };
    if is_decimal(text, number) {
        Some(number)
    } else {
        None
    }
}
