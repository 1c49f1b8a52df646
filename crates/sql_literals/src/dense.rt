//! Text of which many bytes are escaped, by a table.
ghost use Rattle.std.specs.Prelude.{◌≡◌, ◌+◌, ◌*◌, ◌<◌, ◌≤◌, length, take};
ghost use Rattle.std.specs.List.{flat_map};
ghost use Rattle.sql_cells.specs.Literal.{escaped_byte};
ghost use Rattle.sql_literals.specs.Runs.{Escaped, AppendsEscaped};

use crate::pairs::put;
use plain_data::Buffer;

// How many bytes are written at a time.
pub(crate) const CHUNK: usize = 128;

// Writes the next byte.
#[inline(always)]
fn put_next(bytes: &[u8], done: usize, room: &mut [u8], at: usize) -> usize
    requires more { done < length bytes.now }
    requires room { 2 * length bytes.now ≤ length room.old }
    requires before { Escaped bytes.now done room.old at }
    ensures after { Escaped bytes.now (done + 1) room.new result }
    ensures room { length room.new ≡ length room.old }
{
    put(bytes[done], room, at)
}

// Writes the next four bytes.
#[inline(always)]
fn put_four(bytes: &[u8], done: usize, room: &mut [u8], at: usize) -> usize
    requires more { done + 4 ≤ length bytes.now }
    requires room { 2 * length bytes.now ≤ length room.old }
    requires before { Escaped bytes.now done room.old at }
    ensures after { Escaped bytes.now (done + 4) room.new result }
    ensures room { length room.new ≡ length room.old }
{
    let second = done + 1;
    let third = second + 1;
    let at = put_next(bytes, done, room, at);
    let at = put_next(bytes, second, room, at);
    let at = put_next(bytes, third, room, at);
    put_next(bytes, third + 1, room, at)
}

// Writes the next eight bytes.
#[inline(always)]
fn put_eight(bytes: &[u8], done: usize, room: &mut [u8], at: usize) -> usize
    requires more { done + 8 ≤ length bytes.now }
    requires room { 2 * length bytes.now ≤ length room.old }
    requires before { Escaped bytes.now done room.old at }
    ensures after { Escaped bytes.now (done + 8) room.new result }
    ensures room { length room.new ≡ length room.old }
{
    let at = put_four(bytes, done, room, at);
    put_four(bytes, done + 4, room, at)
}

// Writes the next 16 bytes.
#[inline(always)]
fn put_sixteen(bytes: &[u8], done: usize, room: &mut [u8], at: usize) -> usize
    requires more { done + 16 ≤ length bytes.now }
    requires room { 2 * length bytes.now ≤ length room.old }
    requires before { Escaped bytes.now done room.old at }
    ensures after { Escaped bytes.now (done + 16) room.new result }
    ensures room { length room.new ≡ length room.old }
{
    let at = put_eight(bytes, done, room, at);
    put_eight(bytes, done + 8, room, at)
}

// Writes all bytes into the room, which has two for each, and answers how many it took.
#[tactic(auto, using(crate::proofs::Tables::escaped_start, crate::proofs::Tables::escaped_whole))]
fn spell(bytes: &[u8], room: &mut [u8]) -> usize
    requires { 2 * length bytes.now ≤ length room.old }
    ensures bytes { take result room.new ≡ flat_map escaped_byte bytes.now }
    ensures within { result ≤ length room.new }
{
    let mut at = 0;
    let mut done = 0;
    'sixteens: while bytes.len() - done >= 16 {
        at = put_sixteen(bytes, done, room, at);
        done += 16;
    }
    'eights: while bytes.len() - done >= 8 {
        at = put_eight(bytes, done, room, at);
        done += 8;
    }
    'ones: while done < bytes.len() {
        at = put_next(bytes, done, room, at);
        done += 1;
    }
    at
}

// Appends the bytes escaped, by way of the room.
#[inline(always)]
fn push_spelled(bytes: &[u8], room: &mut [u8], out: &mut Buffer)
    requires room { 2 * length bytes.now ≤ length room.old }
    requires fits { length (flat_map escaped_byte bytes.now) ≤ out.old.spare }
    ensures { AppendsEscaped bytes.now out.old out.new }
{
    let size = spell(bytes, room);
    out.push(&room[..size]);
}

// Appends the bytes of one chunk escaped.
pub(crate) fn push_dense(bytes: &[u8], out: &mut Buffer)
    requires short { length bytes.now ≤ 128 }
    requires fits { length (flat_map escaped_byte bytes.now) ≤ out.old.spare }
    ensures { AppendsEscaped bytes.now out.old out.new }
{
    let mut room = [0u8; 2 * CHUNK];
    push_spelled(bytes, &mut room, out);
}

// Appends a few bytes escaped.
pub(crate) fn push_few(bytes: &[u8], out: &mut Buffer)
    requires short { length bytes.now ≤ 16 }
    requires fits { length (flat_map escaped_byte bytes.now) ≤ out.old.spare }
    ensures { AppendsEscaped bytes.now out.old out.new }
{
    let mut room = [0u8; 32];
    push_spelled(bytes, &mut room, out);
}
