//! Readers of parts of a grammar.
ghost use Rattle.std.specs.Prelude.{◌<◌, ◌^◌};
ghost use Rattle.grammar.specs.Reading.{size_of};

use crate::words::{add_counted, add_number, add_text, bytes_of, first_and_rest, limit_and_rest};
use grammar::{after, first_byte, optional, read_fixed};
use plain_data::OutOfMemory;
use std::alloc::Global;

/// Adds what comes of a call on parts of a grammar. A refusal is for want of memory.
pub fn answer(out: &mut String, alloc: Global, call: &str, words: &str) -> Result<(), OutOfMemory> {
    match call {
        "read_fixed" => fixed(out, words),
        "after" => add_reading(out, after(3, reading_of(words))),
        "optional" => add_reading(out, optional(reading_of(words))),
        "first_byte" => first(out, alloc, words),
        _ => add_text(out, "no such call"),
    }
}

// A reading, as `Ok 4` or `Err 3`.
fn reading_of(words: &str) -> Result<usize, usize>
    ensures { size_of result < 2 ^ 32 }
{
    let (word, number) = first_and_rest(words);
    let (size, _) = limit_and_rest(number);
    let size = size as usize;
    if word == "Ok" { Ok(size) } else { Err(size) }
}

fn add_reading(out: &mut String, reading: Result<usize, usize>) -> Result<(), OutOfMemory> {
    match reading {
        Ok(size) => add_counted(out, "Ok ", size as u64),
        Err(place) => add_counted(out, "Err ", place as u64),
    }
}

fn fixed(out: &mut String, words: &str) -> Result<(), OutOfMemory> {
    let (word, bytes) = first_and_rest(words);
    add_reading(out, read_fixed(bytes.as_bytes(), word.as_bytes()))
}

fn first(out: &mut String, alloc: Global, words: &str) -> Result<(), OutOfMemory> {
    let byte = first_byte(&bytes_of(alloc, words)?);
    add_number(out, u64::from(byte))
}
