//! Length-encoded integers.
use crate::words::{add_bytes, add_counted, add_number, add_text, bytes_of, number_and_rest};
use my_packets::{lenenc_into, lenenc_read};
use plain_data::OutOfMemory;
use std::alloc::Global;

/// Adds what comes of a call on numbers. A refusal is for want of memory.
pub fn answer(out: &mut String, alloc: Global, call: &str, words: &str) -> Result<(), OutOfMemory> {
    match call {
        "lenenc_into" => spelled(out, alloc, words),
        "lenenc_read" => read(out, &bytes_of(alloc, words)?),
        _ => add_text(out, "no such call"),
    }
}

fn spelled(out: &mut String, alloc: Global, words: &str) -> Result<(), OutOfMemory> {
    let (value, _) = number_and_rest(words);
    let mut bytes = Vec::new(alloc);
    lenenc_into(value, &mut bytes)?;
    add_bytes(out, &bytes)
}

fn read(out: &mut String, bytes: &[u8]) -> Result<(), OutOfMemory> {
    match lenenc_read(bytes) {
        Some((value, size)) => {
            add_number(out, value)?;
            add_counted(out, " in ", size as u64)
        }
        None => add_text(out, "none"),
    }
}
