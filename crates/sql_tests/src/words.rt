//! Bytes and numbers as the cases have them.
use percent_encoding::{AsciiSet, CONTROLS, ascii_set, percent_decode, percent_encode};
use plain_data::OutOfMemory;
use std::alloc::Global;

// What is written as an escape.
const ESCAPED: AsciiSet = ascii_set!(CONTROLS.add(b'%'));

/// The bytes that a word in percent-encoding stands for. It is refused only for want of memory.
pub fn bytes_of(alloc: Global, word: &str) -> Result<Vec<u8>, OutOfMemory> {
    let mut bytes = Vec::new(alloc);
    percent_decode(word.as_bytes()).append_to(&mut bytes)?;
    Ok(bytes)
}

/// Appends the bytes in percent-encoding. It is refused only for want of memory, and may then have
/// appended a part of them.
pub fn push_bytes(words: &mut String, bytes: &[u8]) -> Result<(), OutOfMemory> {
    percent_encode(bytes, ESCAPED).append_to(words)?;
    Ok(())
}

/// The bytes in percent-encoding. It is refused only for want of memory.
pub fn words_of(alloc: Global, bytes: &[u8]) -> Result<String, OutOfMemory> {
    let mut words = String::new(alloc);
    push_bytes(&mut words, bytes)?;
    Ok(words)
}

/// The text as it is. It is refused only for want of memory.
pub fn plain(alloc: Global, text: &str) -> Result<String, OutOfMemory> {
    Ok(String::from_str(alloc, text)?)
}
