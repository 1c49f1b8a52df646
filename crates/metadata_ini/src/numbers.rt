//! Numbers of files, in decimal.
ghost use Rattle.std.specs.Prelude.{◌≡◌, ◌≢◌, ◌<◌, ◌^◌, true, false, ◌++◌, replicate, ◌-◌, OnOk, MatchOption};
ghost use Rattle.folder_forms.specs.FileName.{file_number};

use crate::spelling::append;
use itoa::Buffer as Digits;
use plain_data::{Buffer, OutOfMemory};

// The zeros before a number of so many digits, up to five digits.
fn zeros(digits: usize) -> &'static [u8]
    ensures { result.now ≡ replicate (5 - digits) 48 }
{
    match digits {
        0 => b"00000",
        1 => b"0000",
        2 => b"000",
        3 => b"00",
        4 => b"0",
        _ => b"",
    }
}

/// Appends the number of a file, with zeros before it up to five digits.
pub(crate) fn append_file_number(number: u32, out: &mut Buffer) -> Result<(), OutOfMemory>
    ensures ok { OnOk result (out.new.bytes ≡ out.old.bytes ++ file_number number) }
{
    let mut room = Digits::new();
    let digits = room.format(number).as_bytes();
    append(zeros(digits.len()), out)?;
    append(digits, out)
}

// Whether the text is the one part and then the other.
fn is_joined(text: &[u8], front: &[u8], back: &[u8]) -> bool
    ensures yes { result ≡ true → text.now ≡ front.now ++ back.now }
    ensures no { result ≡ false → text.now ≢ front.now ++ back.now }
{
    if text.len() < front.len() {
        return false;
    }
    let (first, second) = text.split_at(front.len());
    if first != front {
        return false;
    }
    second == back
}

// Whether the number of a file is written so.
fn is_file_number(text: &[u8], number: u32) -> bool
    ensures yes { result ≡ true → text.now ≡ file_number number }
    ensures no { result ≡ false → text.now ≢ file_number number }
{
    let mut room = Digits::new();
    let digits = room.format(number).as_bytes();
    is_joined(text, zeros(digits.len()), digits)
}

/// The number of a file that is written so.
pub(crate) fn read_file_number(text: &[u8]) -> Option<u32>
    ensures { MatchOption result ((number : _) → number < 2 ^ 32 → text.now ≢ file_number number)
        (λ number. text.now ≡ file_number number) }
{
    let Ok(digits) = std::str::from_utf8(text) else {
        return None;
    };
    let Ok(number) = u32::from_str_radix(digits, 10) else {
        return None;
    };
    if is_file_number(text, number) {
        Some(number)
    } else {
        None
    }
}
