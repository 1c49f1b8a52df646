//! Whole transfers over std's readers and writers, which may take or give less than they are asked.
ghost use Rattle.std.specs.Prelude.{◌≡◌, ◌<◌, ◌≤◌, length, take, IfOk, OnErr, IfSome, IfNone};
ghost use Rattle.std.specs.Io.KnownBytes.{Appends, Consumes, Keeps, IsAtEnd};
ghost use Rattle.link_traits.specs.Link.{IsWithin};

use std::io;
use std::io::{ErrorKind, Read, Write};

/// Writes the bytes, and answers how many of them were written: fewer than all are a failure. What a
/// signal interrupts is tried again. Takes no memory.
pub(crate) fn write_front<W: Write>(to: &mut W, bytes: &[u8]) -> usize
    ensures within { result ≤ length bytes.now }
    ensures written { Appends (W.contents to.old) (W.contents to.new) (take result bytes.now) }
{
    let mut written = 0;
    for _ in 0..u64::MAX {
        if written >= bytes.len() {
            break;
        }
        match write_once(to, &bytes[written..]) {
            Some(count) => written += count,
            None => break,
        }
    }
    written
}

// One write: how many bytes it took, or 0 where a signal interrupted it. `None` is a failure.
fn write_once<W: Write>(to: &mut W, bytes: &[u8]) -> Option<usize>
    ensures within { IfSome result (λ count. count ≤ length bytes.now) }
    ensures written { IfSome result (λ count.
        Appends (W.contents to.old) (W.contents to.new) (take count bytes.now)) }
    ensures none { IfNone result (Keeps (W.contents to.old) (W.contents to.new)) }
{
    match to.write(bytes) {
        Ok(0) => None,
        Ok(count) => Some(count),
        Err(error) if error.kind() == ErrorKind::Interrupted => Some(0),
        Err(_) => None,
    }
}

/// Reads the next bytes to the front of `into`, and answers how many: none only at the end of what
/// there is to read, or where there is no room. What a signal interrupts is tried again. A failure
/// reads nothing. Takes no memory.
pub(crate) fn read_next<R: Read>(from: &mut R, into: &mut [u8]) -> io::Result<usize>
    ensures within { IfOk result (λ count. count ≤ length into.new) }
    ensures bytes { IfOk result (λ count.
        Consumes (R.remaining from.old) (R.remaining from.new) (take count into.new)) }
    ensures end { IfOk result (λ count.
        count ≡ 0 → 0 < length into.new → IsAtEnd (R.remaining from.new)) }
    ensures err { OnErr result (Keeps (R.remaining from.old) (R.remaining from.new)) }
{
    for _ in 0..u64::MAX {
        match from.read(into) {
            Ok(count) => return Ok(count),
            Err(error) if error.kind() == ErrorKind::Interrupted => {}
            Err(error) => return Err(error),
        }
    }
    Err(io::Error::from(ErrorKind::Interrupted))
}

/// Reads some bytes, at least one, to the front of `into`, and answers how many. The end of what
/// there is to read is a failure. What a signal interrupts is tried again. Takes no memory.
pub(crate) fn read_some<R: Read>(from: &mut R, into: &mut [u8]) -> io::Result<usize>
    ensures within { IfOk result (λ count. IsWithin into.new count) }
    ensures bytes { IfOk result (λ count.
        Consumes (R.remaining from.old) (R.remaining from.new) (take count into.new)) }
{
    let count = read_next(from, into)?;
    if count == 0 {
        return Err(io::Error::from(ErrorKind::UnexpectedEof));
    }
    Ok(count)
}
