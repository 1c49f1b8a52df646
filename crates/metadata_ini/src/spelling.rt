//! Names as they are spelled in names of files.
ghost use Rattle.std.specs.Prelude.{◌≡◌, ◌≢◌, ◌≤◌, true, false, [], ◌++◌, length, IsUtf8, IfErr, IfOk, OnOk, OnErr, MatchOption};
ghost use Rattle.server_data.specs.Names.{escaped_name, file_name_byte, lower_digit, stands_as_it_is};
ghost use Rattle.metadata_ini.specs.Spelling.{IsDigit, IsFront, IsNoFront, IsSpelt, SpellsNone, SpellsNoName};
ghost use Rattle.metadata_ini.specs.Fault.{IsNoName};

use crate::fault::NameFault;
use plain_data::{Buffer, Name, OutOfMemory};
use std::alloc::Global;

/// Appends bytes.
pub(crate) fn append(bytes: &[u8], out: &mut Buffer) -> Result<(), OutOfMemory>
    ensures ok { OnOk result (out.new.bytes ≡ out.old.bytes ++ bytes.now) }
{
    out.reserve(bytes.len())?;
    out.push(bytes);
    Ok(())
}

/// Whether two texts are the same.
pub(crate) fn is_same(text: &[u8], other: &[u8]) -> bool
    ensures yes { result ≡ true → text.now ≡ other.now }
    ensures no { result ≡ false → text.now ≢ other.now }
{
    text == other
}

// Whether a byte stands for itself: a letter, a digit or `_` of ASCII.
pub(crate) fn stands(byte: u8) -> bool
    ensures { result ≡ stands_as_it_is byte }
{
    (b'a' <= byte && byte <= b'z')
        || ((b'A' <= byte && byte <= b'Z') || ((b'0' <= byte && byte <= b'9') || byte == b'_'))
}

// A hexadecimal digit in lower case.
fn lower_digit(digit: u8) -> u8
    requires { digit ≤ 15 }
    ensures { result ≡ lower_digit digit }
{
    if digit < 10 { digit + b'0' } else { digit + 87 }
}

// Appends a byte of a name as it is spelled.
fn append_byte(byte: u8, out: &mut Buffer) -> Result<(), OutOfMemory>
    ensures ok { OnOk result (out.new.bytes ≡ out.old.bytes ++ file_name_byte byte) }
{
    if stands(byte) {
        append(&[byte], out)
    } else {
        append(&[b'@', lower_digit(byte / 16), lower_digit(byte % 16)], out)
    }
}

/// Appends a name as it is spelled.
pub(crate) fn append_name(name: &[u8], out: &mut Buffer) -> Result<(), OutOfMemory>
    ensures ok { OnOk result (out.new.bytes ≡ out.old.bytes ++ escaped_name name.now) }
{
    for byte in name {
        append_byte(*byte, out)?;
    }
    Ok(())
}

// The value of a hexadecimal digit in lower case.
fn digit_value(byte: u8) -> Option<u8>
    ensures { MatchOption result ((digit : _) → digit ≤ 15 → lower_digit digit ≢ byte)
        (λ digit. IsDigit digit byte) }
{
    match byte {
        b'0'..=b'9' => Some(byte - b'0'),
        b'a'..=b'f' => Some(byte - 87),
        _ => None,
    }
}

// The byte that is spelled in front, and what comes after it.
fn front_byte(text: &[u8]) -> Option<(u8, &[u8])>
    ensures { MatchOption result (IsNoFront text.now) (λ r. IsFront text.now r.0 r.1.now) }
{
    match text {
        [b'@', high, low, rest @ ..] => {
            let byte = digit_value(*high)? * 16 + digit_value(*low)?;
            if stands(byte) {
                None
            } else {
                Some((byte, rest))
            }
        }
        [byte, rest @ ..] => {
            if stands(*byte) {
                Some((*byte, rest))
            } else {
                None
            }
        }
        [] => None,
    }
}

// The bytes that are spelled so.
fn spelled(alloc: Global, text: &[u8]) -> Result<Vec<u8>, NameFault>
    ensures ok { IfOk result (λ made. escaped_name made.items ≡ text.now) }
    ensures err { IfErr result (IsNoName (SpellsNone text.now)) }
{
    let mut made = Vec::new(alloc);
    let mut rest = text;
    'bytes: while rest.len() > 0 {
        let Some((byte, after)) = front_byte(rest) else {
            return Err(NameFault::NotAName);
        };
        if made.push(byte).is_err() {
            return Err(NameFault::OutOfMemory);
        }
        rest = after;
    }
    Ok(made)
}

/// The name that is spelled so.
#[tactic(auto, using(crate::proofs::Spelled::no_bytes_fault))]
pub(crate) fn read_name(alloc: Global, text: &[u8]) -> Result<Name, NameFault>
    ensures ok { IfOk result (λ name. IsSpelt text.now name) }
    ensures err { IfErr result (IsNoName (SpellsNoName text.now)) }
{
    if text.len() == 0 {
        return Err(NameFault::NotAName);
    }
    let bytes = spelled(alloc, text)?;
    match std::str::from_utf8(bytes.as_slice()) {
        Ok(name) => Ok(Name::of(alloc, name)?),
        Err(_) => Err(NameFault::NotAName),
    }
}
