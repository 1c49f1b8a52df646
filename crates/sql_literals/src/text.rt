//! Text between single quotes.
ghost use Rattle.std.specs.Prelude.{◌≡◌, ◌+◌, ◌-◌, ◌<◌, ◌≤◌, ◌^◌, ◌++◌, length, take, drop, true, IsOk, OnOk, OnErr, MatchOption};
ghost use Rattle.std.specs.List.{flat_map};
ghost use Rattle.sql_cells.specs.Literal.{escaped_byte, text_literal};
ghost use Rattle.sql_literals.specs.Room.{TakesRoom};
ghost use Rattle.sql_literals.specs.Runs.{AppendsEscaped, PlainRun};

use crate::dense::{CHUNK, push_dense, push_few};
use crate::special::{special_count, suspect_bits};
use plain_data::{Buffer, OutOfMemory};

// How many bytes the literal of a text of at most 64 MiB has.
#[tactic(auto, using(crate::proofs::Growth::quoted_length))]
pub(crate) fn text_length(bytes: &[u8]) -> usize
    requires { length bytes.now ≤ 67108864 }
    ensures { result ≡ length (text_literal bytes.now) }
{
    bytes.len() + special_count(bytes) + 2
}

/// How many bytes the literal of a text has, between single quotes and escaped, if that many can be
/// counted. Takes no memory.
#[tactic(auto, using(crate::proofs::Growth::quoted_length))]
pub fn text_length_checked(bytes: &[u8]) -> Option<usize>
    ensures { let size = length (text_literal bytes.now) in
        MatchOption result (2 ^ 64 ≤ size) (λ n. n ≡ size) }
{
    bytes
        .len()
        .checked_add(special_count(bytes))?
        .checked_add(2)
}

// Whether the bytes from a place on, 16 of them at most, are known to be plain. It looks at the last
// 16 bytes.
#[inline(always)]
fn is_plain_end(bytes: &[u8], from: usize) -> bool
    requires within { from ≤ length bytes.now }
    requires short { length bytes.now ≤ from + 16 }
    ensures { result ≡ true → PlainRun bytes.now from (length bytes.now) }
{
    if bytes.len() < 16 {
        return false;
    }
    suspect_bits(bytes, bytes.len() - 16) == 0
}

// Up to where the bytes from a place on are known to be plain: 16 of them at a time, or all.
#[inline(always)]
fn known_until(bytes: &[u8], from: usize) -> usize
    requires { from ≤ length bytes.now }
    ensures { PlainRun bytes.now from result }
{
    let mut seen = from;
    'wide: while bytes.len() - seen >= 16 {
        if suspect_bits(bytes, seen) != 0 {
            return seen;
        }
        seen += 16;
    }
    if is_plain_end(bytes, seen) {
        return bytes.len();
    }
    seen
}

// Appends a run of plain bytes as it is.
#[inline(always)]
fn push_plain(bytes: &[u8], from: usize, to: usize, out: &mut Buffer)
    requires plain { PlainRun bytes.now from to }
    requires fits { length (flat_map escaped_byte (drop from bytes.now)) ≤ out.old.spare }
    ensures { AppendsEscaped (take (to - from) (drop from bytes.now)) out.old out.new }
{
    if from < to {
        out.push(&bytes[from..to]);
    }
}

// Up to where bytes are escaped one by one, where at least 16 are left: all of one chunk where several
// of these may be special, and else these.
#[inline(always)]
fn dense_until(bytes: &[u8], from: usize) -> usize
    requires { from + 16 ≤ length bytes.now }
    ensures onward { from < result }
    ensures within { result ≤ length bytes.now }
    ensures short { result ≤ from + 128 }
{
    if suspect_bits(bytes, from).count_ones() > 1 {
        from + CHUNK.min(bytes.len() - from)
    } else {
        from + 16
    }
}

// Appends what comes after a run escaped, where there is more, and answers up to where.
#[inline(always)]
fn push_special(bytes: &[u8], from: usize, out: &mut Buffer) -> usize
    requires within { from ≤ length bytes.now }
    requires fits { length (flat_map escaped_byte (drop from bytes.now)) ≤ out.old.spare }
    ensures onward { from < length bytes.now → from < result }
    ensures within { result ≤ length bytes.now }
    ensures low { from ≤ result }
    ensures appends { AppendsEscaped (take (result - from) (drop from bytes.now)) out.old out.new }
{
    if from == bytes.len() {
        return from;
    }
    if bytes.len() - from < 16 {
        push_few(&bytes[from..], out);
        bytes.len()
    } else {
        let end = dense_until(bytes, from);
        push_dense(&bytes[from..end], out);
        end
    }
}

// Appends the bytes escaped: runs of plain bytes whole, and what comes after each over the table.
fn push_escaped(bytes: &[u8], out: &mut Buffer)
    requires { length (flat_map escaped_byte bytes.now) ≤ out.old.spare }
    ensures { AppendsEscaped bytes.now out.old out.new }
{
    let mut done = 0;
    'runs: while done < bytes.len() {
        let to = known_until(bytes, done);
        push_plain(bytes, done, to, out);
        done = push_special(bytes, to, out);
    }
}

// Makes room for the literal and so many bytes around it, 64 at most. Only where twice the bytes,
// the quotes and what stands around don't fit are the special bytes counted.
#[inline]
#[tactic(auto, using(crate::proofs::Growth::quoted_bound))]
pub(crate) fn reserve_text(bytes: &[u8], around: usize, out: &mut Buffer) -> Result<(), OutOfMemory>
    requires { around ≤ 64 }
    ensures bytes { out.new.bytes ≡ out.old.bytes }
    ensures ok { OnOk result (length (text_literal bytes.now) + around ≤ out.new.spare) }
    ensures err { OnErr result (out.new ≡ out.old) }
    ensures room { length (text_literal bytes.now) + around ≤ out.old.spare →
        IsOk result × (out.new ≡ out.old) }
{
    let spare = out.spare();
    if spare >= around + 2 && bytes.len() <= (spare - around - 2) / 2 {
        return Ok(());
    }
    let Some(text) = text_length_checked(bytes) else {
        return Err(OutOfMemory);
    };
    let Some(length) = text.checked_add(around) else {
        return Err(OutOfMemory);
    };
    out.reserve(length)
}

// Appends a text's literal, for which the room is there.
#[inline]
#[tactic(auto, using(crate::proofs::Growth::literal_length))]
pub(crate) fn push_text(bytes: &[u8], out: &mut Buffer)
    requires { length (text_literal bytes.now) ≤ out.old.spare }
    ensures bytes { out.new.bytes ≡ out.old.bytes ++ text_literal bytes.now }
    ensures spare { out.new.spare + length (text_literal bytes.now) ≡ out.old.spare }
{
    out.push_byte(b'\'');
    push_escaped(bytes, out);
    out.push_byte(b'\'');
}

// Appends a text's literal. Where the room is there it takes no memory.
#[inline]
pub(crate) fn text_into(bytes: &[u8], out: &mut Buffer) -> Result<(), OutOfMemory>
    ensures ok { OnOk result (out.new.bytes ≡ out.old.bytes ++ text_literal bytes.now) }
    ensures err { OnErr result (out.new ≡ out.old) }
    ensures room { TakesRoom result out.old.spare out.new.spare (text_literal bytes.now) }
{
    reserve_text(bytes, 0, out)?;
    push_text(bytes, out);
    Ok(())
}
