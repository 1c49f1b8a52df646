//! Bytes that stand where those before them stand.
ghost use Rattle.std.specs.Prelude.{◌≡◌, ◌≤◌, length, drop};
ghost use Rattle.memchr.specs.Find.{is_byte, is_byte2};
ghost use Rattle.statement_splitter.specs.State.{Until, RunWithin};
ghost use Rattle.splitter_forms.specs.declared.within.Within.TheVariants.{Text};

use memchr::{memchr, memchr2};
use splitter_forms::Within;

// 1 at each byte that matters in a text: `"`, `#`, `'`, `-`, `/`, `;` and the backquote.
static STOPS: [u8; 256] = [
    0, 0, 0, 0, 0, 0, 0, 0, 0, 0, 0, 0, 0, 0, 0, 0, 0, 0, 0, 0, 0, 0, 0, 0, 0, 0, 0, 0, 0, 0, 0, 0,
    0, 0, 1, 1, 0, 0, 0, 1, 0, 0, 0, 0, 0, 1, 0, 1, 0, 0, 0, 0, 0, 0, 0, 0, 0, 0, 0, 1, 0, 0, 0, 0,
    0, 0, 0, 0, 0, 0, 0, 0, 0, 0, 0, 0, 0, 0, 0, 0, 0, 0, 0, 0, 0, 0, 0, 0, 0, 0, 0, 0, 0, 0, 0, 0,
    1, 0, 0, 0, 0, 0, 0, 0, 0, 0, 0, 0, 0, 0, 0, 0, 0, 0, 0, 0, 0, 0, 0, 0, 0, 0, 0, 0, 0, 0, 0, 0,
    0, 0, 0, 0, 0, 0, 0, 0, 0, 0, 0, 0, 0, 0, 0, 0, 0, 0, 0, 0, 0, 0, 0, 0, 0, 0, 0, 0, 0, 0, 0, 0,
    0, 0, 0, 0, 0, 0, 0, 0, 0, 0, 0, 0, 0, 0, 0, 0, 0, 0, 0, 0, 0, 0, 0, 0, 0, 0, 0, 0, 0, 0, 0, 0,
    0, 0, 0, 0, 0, 0, 0, 0, 0, 0, 0, 0, 0, 0, 0, 0, 0, 0, 0, 0, 0, 0, 0, 0, 0, 0, 0, 0, 0, 0, 0, 0,
    0, 0, 0, 0, 0, 0, 0, 0, 0, 0, 0, 0, 0, 0, 0, 0, 0, 0, 0, 0, 0, 0, 0, 0, 0, 0, 0, 0, 0, 0, 0, 0,
];

// The bytes from `at` on.
#[inline]
pub(crate) fn rest_of(bytes: &[u8], at: usize) -> &[u8]
    requires { at ≤ length bytes.now }
    ensures { result.now ≡ drop at bytes.now }
{
    &bytes[at..]
}

// The place from `from` on of the first such byte, or the end.
#[inline]
pub(crate) fn byte_until(bytes: &[u8], from: usize, byte: u8) -> usize
    requires { from ≤ length bytes.now }
    ensures { Until (is_byte byte) bytes.now from result }
{
    match memchr(byte, rest_of(bytes, from)) {
        Some(size) => from + size,
        None => bytes.len(),
    }
}

// The same of two bytes.
#[inline]
fn either_until(bytes: &[u8], from: usize, one: u8, other: u8) -> usize
    requires { from ≤ length bytes.now }
    ensures { Until (is_byte2 one other) bytes.now from result }
{
    match memchr2(one, other, rest_of(bytes, from)) {
        Some(size) => from + size,
        None => bytes.len(),
    }
}

// A place up to which the bytes from `from` on are plain in a text.
#[inline]
fn text_until(bytes: &[u8], from: usize) -> usize
    requires { from ≤ length bytes.now }
    ensures { RunWithin Text bytes.now from result }
{
    for i in from..bytes.len() {
        if STOPS[bytes[i] as usize] != 0 {
            return i;
        }
    }
    bytes.len()
}

// A place up to which the bytes from `from` on are plain where they stand.
#[inline]
pub(crate) fn plain_until(bytes: &[u8], from: usize, within: Within) -> usize
    requires { from ≤ length bytes.now }
    ensures { RunWithin within bytes.now from result }
{
    match within {
        Within::Text => text_until(bytes, from),
        Within::Quoted(quote) => either_until(bytes, from, quote, b'\\'),
        Within::Comment => byte_until(bytes, from, b'*'),
        Within::Line => byte_until(bytes, from, b'\n'),
        Within::Name => byte_until(bytes, from, b'`'),
        _ => from,
    }
}
