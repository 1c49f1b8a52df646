//! The words of cases, and what they stand for.

use percent_encoding::{CONTROLS, percent_decode, percent_encode};
use plain_data::{NumberList, OutOfMemory};
use std::alloc::Global;

/// The first word, and what stands after its space.
pub fn first_word(words: &str) -> (&str, &str) {
    match words.split_once(' ') {
        Some(parts) => parts,
        None => (words, ""),
    }
}

/// A text of its own.
pub fn said(alloc: Global, text: &str) -> Result<String, OutOfMemory> {
    Ok(String::from_str(alloc, text)?)
}

/// The bytes that stand in percent-encoding.
pub fn bytes_of(alloc: Global, word: &str) -> Result<Vec<u8>, OutOfMemory> {
    let mut bytes = Vec::new(alloc);
    percent_decode(word.as_bytes()).append_to(&mut bytes)?;
    Ok(bytes)
}

/// Bytes in percent-encoding.
pub fn spelled(alloc: Global, bytes: &[u8]) -> Result<String, OutOfMemory> {
    let mut words = String::new(alloc);
    percent_encode(bytes, CONTROLS).append_to(&mut words)?;
    or_nothing(words)
}

/// The words, or a word for none.
pub fn or_nothing(mut words: String) -> Result<String, OutOfMemory> {
    if words.as_str().is_empty() {
        words.push_str("nothing")?;
    }
    Ok(words)
}

/// Numbers with commas; a word that is no number stands for none.
pub fn numbers_of(alloc: Global, words: &str) -> Result<NumberList, OutOfMemory> {
    let mut numbers = NumberList::new(alloc);
    for word in words.split(',') {
        if let Ok(number) = word.parse() {
            numbers.push(number)?;
        }
    }
    Ok(numbers)
}
