//! Special bytes, which a text literal writes after a backslash, and the runs between them.
ghost use Rattle.std.specs.Prelude.{◌≡◌, ◌+◌, ◌≤◌, ◌==◌, nat_lt, length, map, bit_or, count_by, take, drop};
ghost use Rattle.sql_cells.specs.Literal.{is_special};
ghost use Rattle.sql_literals.specs.Runs.{PlainRun, marks, is_suspect};
ghost use lib.Lanes.{mask_l, zip2};

use std::simd::prelude::*;

// 1 at each special byte.
static MARKS: [u8; 256] = [
    1, 0, 0, 0, 0, 0, 0, 0, 0, 0, 1, 0, 0, 1, 0, 0, 0, 0, 0, 0, 0, 0, 0, 0, 0, 0, 1, 0, 0, 0, 0, 0,
    0, 0, 1, 0, 0, 0, 0, 1, 0, 0, 0, 0, 0, 0, 0, 0, 0, 0, 0, 0, 0, 0, 0, 0, 0, 0, 0, 0, 0, 0, 0, 0,
    0, 0, 0, 0, 0, 0, 0, 0, 0, 0, 0, 0, 0, 0, 0, 0, 0, 0, 0, 0, 0, 0, 0, 0, 0, 0, 0, 0, 1, 0, 0, 0,
    0, 0, 0, 0, 0, 0, 0, 0, 0, 0, 0, 0, 0, 0, 0, 0, 0, 0, 0, 0, 0, 0, 0, 0, 0, 0, 0, 0, 0, 0, 0, 0,
    0, 0, 0, 0, 0, 0, 0, 0, 0, 0, 0, 0, 0, 0, 0, 0, 0, 0, 0, 0, 0, 0, 0, 0, 0, 0, 0, 0, 0, 0, 0, 0,
    0, 0, 0, 0, 0, 0, 0, 0, 0, 0, 0, 0, 0, 0, 0, 0, 0, 0, 0, 0, 0, 0, 0, 0, 0, 0, 0, 0, 0, 0, 0, 0,
    0, 0, 0, 0, 0, 0, 0, 0, 0, 0, 0, 0, 0, 0, 0, 0, 0, 0, 0, 0, 0, 0, 0, 0, 0, 0, 0, 0, 0, 0, 0, 0,
    0, 0, 0, 0, 0, 0, 0, 0, 0, 0, 0, 0, 0, 0, 0, 0, 0, 0, 0, 0, 0, 0, 0, 0, 0, 0, 0, 0, 0, 0, 0, 0,
];

#[inline]
fn is_special(byte: u8) -> bool
    ensures { result ≡ is_special byte }
{
    byte == 0 || byte == 10 || byte == 13 || byte == 26 || byte == 34 || byte == 39 || byte == 92
}

#[inline(always)]
fn equal_to(lanes: u8x16, byte: u8) -> u8x16
    ensures { result ≡ marks (λ lane. lane == byte) lanes }
{
    lanes
        .simd_eq(u8x16::splat(byte))
        .select(u8x16::splat(255), u8x16::splat(0))
}

#[inline(always)]
fn below(lanes: u8x16, byte: u8) -> u8x16
    ensures { result ≡ marks (λ lane. nat_lt lane byte) lanes }
{
    lanes
        .simd_lt(u8x16::splat(byte))
        .select(u8x16::splat(255), u8x16::splat(0))
}

#[inline(always)]
fn either(a: u8x16, b: u8x16) -> u8x16
    ensures { result ≡ zip2 bit_or a b }
{
    a | b
}

#[inline(always)]
#[tactic(auto, using(crate::proofs::Marks::either_marks))]
fn specials(lanes: u8x16) -> u8x16
    ensures { result ≡ marks is_special lanes }
{
    let marks = either(equal_to(lanes, 0), equal_to(lanes, 10));
    let marks = either(marks, equal_to(lanes, 13));
    let marks = either(marks, equal_to(lanes, 26));
    let marks = either(marks, equal_to(lanes, 34));
    let marks = either(marks, equal_to(lanes, 39));
    either(marks, equal_to(lanes, 92))
}

#[inline(always)]
fn special_bits(lanes: u8x16) -> u64
    ensures { result ≡ mask_l (map is_special lanes) }
{
    let marks = specials(lanes);
    marks.simd_eq(u8x16::splat(255)).to_bitmask()
}

#[inline(always)]
#[tactic(auto, using(crate::proofs::Marks::either_marks))]
fn suspects(lanes: u8x16) -> u8x16
    ensures { result ≡ marks is_suspect lanes }
{
    let marks = either(below(lanes, 32), equal_to(lanes, 34));
    let marks = either(marks, equal_to(lanes, 39));
    either(marks, equal_to(lanes, 92))
}

// A bit for each of 16 bytes, the first of them the lowest: whether it is suspect, as every special
// byte is and few others are.
#[inline(always)]
pub(crate) fn suspect_bits(bytes: &[u8], at: usize) -> u64
    requires { at + 16 ≤ length bytes.now }
    ensures { result ≡ 0 → PlainRun bytes.now at (at + 16) }
{
    let marks = suspects(u8x16::from_slice(&bytes[at..]));
    marks.simd_eq(u8x16::splat(255)).to_bitmask()
}

// How many of the next 16 bytes come before the first special one.
#[inline(always)]
fn plain_lanes(bytes: &[u8], at: usize) -> usize
    requires { at + 16 ≤ length bytes.now }
    ensures run { PlainRun bytes.now at (at + result) }
    ensures within { result ≤ 16 }
{
    let bits = special_bits(u8x16::from_slice(&bytes[at..]));
    if bits == 0 {
        16
    } else {
        bits.trailing_zeros() as usize
    }
}

// A place from which on the bytes are no more known to be plain, where those up to `seen` are.
#[inline]
fn plain_from(bytes: &[u8], from: usize, seen: usize) -> usize
    requires { PlainRun bytes.now from seen }
    ensures { PlainRun bytes.now from result }
{
    for i in seen..bytes.len() {
        if MARKS[bytes[i] as usize] != 0 {
            return i;
        }
    }
    bytes.len()
}

// A place up to which the bytes from `from` on are plain: the end, or that of a special byte. It
// looks at 16 bytes at a time.
#[inline]
pub(crate) fn plain_until(bytes: &[u8], from: usize) -> usize
    requires { from ≤ length bytes.now }
    ensures { PlainRun bytes.now from result }
{
    let mut seen = from;
    'wide: while bytes.len() - seen >= 16 {
        let plain = plain_lanes(bytes, seen);
        seen += plain;
        if plain < 16 {
            return seen;
        }
    }
    plain_from(bytes, from, seen)
}

// How many of the next 16 bytes are special.
#[inline(always)]
fn special_lane_count(bytes: &[u8], at: usize) -> usize
    requires { at + 16 ≤ length bytes.now }
    ensures count { result ≡ count_by is_special (take 16 (drop at bytes.now)) }
    ensures small { result ≤ 16 }
{
    let bits = special_bits(u8x16::from_slice(&bytes[at..]));
    bits.count_ones() as usize
}

// How many bytes are special.
#[tactic(auto, using(crate::proofs::Counts::counted_more))]
pub(crate) fn special_count(bytes: &[u8]) -> usize
    ensures { result ≡ count_by is_special bytes.now }
{
    let mut count = 0;
    let mut at = 0;
    'wide: while bytes.len() - at >= 16 {
        count += special_lane_count(bytes, at);
        at += 16;
    }
    'narrow: while at < bytes.len() {
        if is_special(bytes[at]) {
            count += 1;
        }
        at += 1;
    }
    count
}
