//! The words of cases: numbers, and bytes in percent-encoding. Each call that adds words to a text refuses
//! for want of memory alone, and may have added some of them then.
use percent_encoding::{CONTROLS, percent_decode, percent_encode};
use plain_data::OutOfMemory;
use std::alloc::Global;
use wire_forms::{Ends, Refusal};

/// The bytes that a word spells, as they are or in percent-encoding. A refusal is for want of memory.
pub fn bytes_of(alloc: Global, word: &str) -> Result<Vec<u8>, OutOfMemory> {
    let mut bytes = Vec::new(alloc);
    percent_decode(word.as_bytes()).append_to(&mut bytes)?;
    Ok(bytes)
}

/// Adds bytes in percent-encoding: controls, bytes past 0x7e and the percent sign are spelled.
pub fn add_bytes(out: &mut String, bytes: &[u8]) -> Result<(), OutOfMemory> {
    percent_encode(bytes, CONTROLS.add(b'%')).append_to(out)?;
    Ok(())
}

/// Adds a text as it is.
pub fn add_text(out: &mut String, text: &str) -> Result<(), OutOfMemory> {
    out.push_str(text)?;
    Ok(())
}

/// Adds a number in decimal digits.
pub fn add_number(out: &mut String, number: u64) -> Result<(), OutOfMemory> {
    write!(out, "{number}")?;
    Ok(())
}

/// Adds a text, and bytes in percent-encoding.
pub fn add_named(out: &mut String, name: &str, bytes: &[u8]) -> Result<(), OutOfMemory> {
    add_text(out, name)?;
    add_bytes(out, bytes)
}

/// Adds a text, and a number in decimal digits.
pub fn add_counted(out: &mut String, name: &str, number: u64) -> Result<(), OutOfMemory> {
    add_text(out, name)?;
    add_number(out, number)
}

/// Adds `true` or `false`.
pub fn add_truth(out: &mut String, truth: bool) -> Result<(), OutOfMemory> {
    add_text(out, if truth { "true" } else { "false" })
}

/// Adds bytes in hexadecimal digits.
pub fn add_hex(out: &mut String, bytes: &[u8]) -> Result<(), OutOfMemory> {
    for byte in bytes {
        write!(out, "{byte:02x}")?;
    }
    Ok(())
}

/// Adds what a server says in an ERR.
pub fn add_refusal(out: &mut String, refusal: &Refusal) -> Result<(), OutOfMemory> {
    add_counted(out, "refused ", u64::from(refusal.code))?;
    add_named(out, " ", &refusal.state)?;
    add_named(out, " '", refusal.message.as_slice())?;
    add_text(out, "'")
}

/// The first word, and what stands after it; both are empty where nothing is there.
pub fn first_and_rest(words: &str) -> (&str, &str) {
    words.split_once(' ').unwrap_or((words, ""))
}

/// The number that stands first, and what stands after it. A word that is no number is 0.
pub fn number_and_rest(words: &str) -> (u64, &str) {
    let (word, rest) = first_and_rest(words);
    (word.parse().unwrap_or(0), rest)
}

/// The number of one byte that stands first, and what stands after it. A word that is none is 0.
pub fn byte_and_rest(words: &str) -> (u8, &str) {
    let (word, rest) = first_and_rest(words);
    (word.parse().unwrap_or(0), rest)
}

/// The number of four bytes that stands first, and what stands after it. A word that is none is 0.
pub fn limit_and_rest(words: &str) -> (u32, &str) {
    let (word, rest) = first_and_rest(words);
    (word.parse().unwrap_or(0), rest)
}

/// How result sets end, by an OK at the word `ok` and else by EOF packets, and what stands after the word.
pub fn ends_and_rest(words: &str) -> (Ends, &str) {
    let (word, rest) = first_and_rest(words);
    let ends = if word == "ok" { Ends::Ok } else { Ends::Eof };
    (ends, rest)
}
