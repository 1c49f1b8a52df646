//! The words of cases, and what they stand for.

use percent_encoding::{CONTROLS, percent_decode, percent_encode};
use std::alloc::Global;
use std::io;

/// The first word, and what stands after its space.
pub fn first_word(words: &str) -> (&str, &str) {
    match words.split_once(' ') {
        Some(parts) => parts,
        None => (words, ""),
    }
}

/// A text of its own.
pub fn said(alloc: Global, text: &str) -> io::Result<String> {
    Ok(String::from_str(alloc, text)?)
}

/// One text where the call went well, and else another.
pub fn said_of(alloc: Global, is_well: bool, well: &str) -> io::Result<String> {
    said(alloc, if is_well { well } else { "failed" })
}

/// A number in digits.
pub fn digits(alloc: Global, number: u64) -> io::Result<String> {
    Ok(format!(in alloc; "{number}")?)
}

/// The bytes that stand in percent-encoding.
pub fn bytes_of(alloc: Global, word: &str) -> io::Result<Vec<u8>> {
    let mut bytes = Vec::new(alloc);
    percent_decode(word.as_bytes()).append_to(&mut bytes)?;
    Ok(bytes)
}

/// Bytes in percent-encoding.
pub fn spelled(alloc: Global, bytes: &[u8]) -> io::Result<String> {
    let mut words = String::new(alloc);
    percent_encode(bytes, CONTROLS).append_to(&mut words)?;
    or_nothing(words)
}

/// The words, or a word for none.
pub fn or_nothing(mut words: String) -> io::Result<String> {
    if words.as_str().is_empty() {
        words.push_str("nothing")?;
    }
    Ok(words)
}

/// The number that the word spells, or 0.
pub fn number_of(word: &str) -> u64 {
    word.parse().unwrap_or(0)
}
