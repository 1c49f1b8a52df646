//! Ranges of keys.
ghost use Rattle.std.specs.Prelude.{◌≡◌, IfOk};
ghost use Rattle.honest_server.specs.Answer.{is_above, is_up_to};
ghost use Rattle.honest_server.specs.WideKey.{comes_first, is_after, is_not_after};
ghost use Rattle.chunk_forms.specs.Chunk.{holds, holds_wide};

use plain_data::{OutOfMemory, Plain, PlainList};
use statement_forms::NumberRow;

/// The rows whose key is greater than `above` and at most `upto`, as far as these are there.
#[derive(Clone, Copy)]
pub struct KeyRange<K> {
    pub above: Option<K>,
    pub upto: Option<K>,
}

/// The rows of a table whose key is one column of integers in this range.
pub type Chunk = KeyRange<i128>;

/// The rows of a table whose key is two to four columns of integers in this range.
pub type WideChunk = KeyRange<NumberRow>;

/// A list of chunks.
pub type ChunkList = PlainList<Chunk>;

/// A list of chunks by keys of several columns.
pub type WideChunkList = PlainList<WideChunk>;

// A copy takes no memory.
impl<K: Copy + Drop> Plain for KeyRange<K> {
    fn duplicate(&self) -> Result<KeyRange<K>, OutOfMemory> {
        Ok(*self)
    }
}

// Whether the key is greater than the bound, or there is no bound.
fn is_above(bound: Option<i128>, key: i128) -> bool
    ensures { result ≡ is_above bound key }
{
    match bound {
        None => true,
        Some(bound) => bound < key,
    }
}

// Whether the key is at most the bound, or there is no bound.
fn is_up_to(bound: Option<i128>, key: i128) -> bool
    ensures { result ≡ is_up_to bound key }
{
    match bound {
        None => true,
        Some(bound) => key <= bound,
    }
}

impl KeyRange<i128> {
    /// Whether the key is greater than `above` and at most `upto`, as far as these are there. Takes no
    /// memory.
    pub fn holds(&self, key: i128) -> bool
        ensures { result ≡ holds self.now key }
    {
        is_above(self.above, key) && is_up_to(self.upto, key)
    }
}

// Whether one list of numbers comes before another: at the first place where they differ its number is
// less, or it ends there.
fn comes_first(numbers: &[i128], others: &[i128]) -> bool
    ensures { result ≡ comes_first numbers.now others.now }
{
    let mut left = numbers;
    let mut right = others;
    'numbers: while let [next, later @ ..] = right {
        let [number, rest @ ..] = left else {
            return true;
        };
        if number < next {
            return true;
        }
        if next < number {
            return false;
        }
        left = rest;
        right = later;
    }
    false
}

// Whether the key comes after the bound, or there is no bound.
fn is_after(bound: &Option<NumberRow>, key: &NumberRow) -> bool
    ensures { result ≡ is_after bound.now key.now }
{
    match bound {
        None => true,
        Some(bound) => comes_first(bound.numbers(), key.numbers()),
    }
}

// Whether the key is the bound or comes before it, or there is no bound.
fn is_not_after(bound: &Option<NumberRow>, key: &NumberRow) -> bool
    ensures { result ≡ is_not_after bound.now key.now }
{
    match bound {
        None => true,
        Some(bound) => !comes_first(bound.numbers(), key.numbers()),
    }
}

impl KeyRange<NumberRow> {
    /// Whether the key comes after `above` and not after `upto`, as far as these are there. Keys are
    /// compared by their first numbers that differ, as MySQL compares row constructors (MySQL 8.0
    /// Reference Manual, 14.4.2); of two keys of which one begins with the other, the shorter comes
    /// first. Takes no memory.
    pub fn holds(&self, key: &NumberRow) -> bool
        ensures { result ≡ holds_wide self.now key.now }
    {
        is_after(&self.above, key) && is_not_after(&self.upto, key)
    }
}
