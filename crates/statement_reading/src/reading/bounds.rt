//! Readers of numbers with commas between them: the bound of a key of several columns.
ghost use Rattle.std.specs.Prelude.{◌≡◌, ◌≤◌, false, length};
ghost use Rattle.grammar.specs.Language.{Reads, Times};
ghost use Rattle.statement_forms.specs.Number.{IsNumberRow};
ghost use Rattle.statement_forms.specs.Text.{numbers};
ghost use Rattle.statement_reading.specs.Parts.{inside_after, comma_count, commas, NextBound, BoundsAnd, IsBoundRow};

use crate::reading::numbers::read_bound;
use crate::reading::values::bound_value;
use grammar::{after, read_fixed};
use statement_forms::NumberRow;

// Whether a name goes on after a byte.
fn inside_after(inside: bool, byte: u8) -> bool
    ensures { result ≡ inside_after inside byte }
{
    if inside { byte != b'`' } else { byte == b'`' }
}

// One for a comma between names.
fn comma_count(inside: bool, byte: u8) -> usize
    ensures count { result ≡ comma_count inside byte }
    ensures most { result ≤ 1 }
{
    if inside {
        0
    } else if byte == b',' {
        1
    } else {
        0
    }
}

/// How many commas stand between names.
pub(crate) fn commas(names: &[u8]) -> usize
    ensures { result ≡ commas false names.now }
{
    let mut count = 0;
    let mut inside = false;
    for byte in names {
        count += comma_count(inside, *byte);
        inside = inside_after(inside, *byte);
    }
    count
}

fn read_next_bound(bytes: &[u8]) -> Result<usize, usize>
    ensures { Reads NextBound bytes.now result }
{
    let comma = read_fixed(bytes, b",")?;
    after(comma, read_bound(&bytes[comma..]))
}

// So many numbers, each after a comma.
fn read_next_bounds(bytes: &[u8], more: usize) -> Result<usize, usize>
    ensures { Reads (Times NextBound more) bytes.now result }
{
    let mut at = 0;
    for i in 0..more {
        match read_next_bound(&bytes[at..]) {
            Ok(size) => at += size,
            Err(place) => return Err(at + place),
        }
    }
    Ok(at)
}

/// One more than so many numbers with commas between them.
pub(crate) fn read_bounds(bytes: &[u8], more: usize) -> Result<usize, usize>
    ensures { Reads (BoundsAnd more) bytes.now result }
{
    let first = read_bound(bytes)?;
    after(first, read_next_bounds(&bytes[first..], more))
}

// The row of two to four numbers.
fn made_row(numbers: &[i128]) -> NumberRow
    requires least { 2 ≤ length numbers.now }
    requires most { length numbers.now ≤ 4 }
    ensures numbers { result ≡ numbers.now }
    ensures row { IsNumberRow result }
{
    let Some(row) = NumberRow::of(numbers) else {
        unreachable!()
    };
    let _numbers = row.numbers();
    row
}

/// The two to four numbers that are written so.
pub(crate) fn bounds_value(text: &[u8]) -> NumberRow
    requires { IsBoundRow text.now }
    ensures text { numbers result ≡ text.now }
    ensures row { IsNumberRow result }
{
    let mut places = [0; 4];
    let mut count = 0;
    let mut at = 0;
    'numbers: loop {
        let Ok(size) = read_bound(&text[at..]) else {
            unreachable!()
        };
        places[count] = bound_value(&text[at..at + size]);
        count += 1;
        at += size;
        if at == text.len() {
            return made_row(&places[..count]);
        }
        at += 1;
    }
}
