//! Bytes and numbers as they are written in cases.
use crate::fault::CaseFault;
use percent_encoding::{CONTROLS, percent_decode, percent_encode};
use std::alloc::Global;

// The most letters that a case asks for at once.
const LIMIT: u32 = 20_000_000;

/// A number, or 0 where it is none.
pub fn number(word: &str) -> u32 {
    word.parse().unwrap_or(0)
}

/// A number of one byte, or 0 where it is none.
pub fn byte(word: &str) -> u8 {
    word.parse().unwrap_or(0)
}

// Appends so many letters `a`.
fn letters_into(size: u32, bytes: &mut Vec<u8>) -> Result<(), CaseFault> {
    if size > LIMIT {
        return Err(CaseFault::Unread);
    }
    let Some(size) = bytes.len().checked_add(size as usize) else {
        return Err(CaseFault::Unread);
    };
    bytes.resize(size, b'a')?;
    Ok(())
}

/// The bytes that are written in percent-encoding. A number between two `~` stands for so many letters
/// `a`.
pub fn bytes_of(alloc: Global, words: &str) -> Result<Vec<u8>, CaseFault> {
    let mut bytes = Vec::new(alloc);
    let mut is_number = false;
    for part in words.split('~') {
        if is_number {
            letters_into(number(part), &mut bytes)?;
        } else {
            percent_decode(part.as_bytes()).append_to(&mut bytes)?;
        }
        is_number = !is_number;
    }
    Ok(bytes)
}

/// What was found, and with which greatest answer of a `recv`.
pub fn spelled(alloc: Global, cut: &str, found: &[u8]) -> Result<String, CaseFault> {
    let mut words = format!(in alloc; "cut at {cut}, ")?;
    percent_encode(found, CONTROLS).append_to(&mut words)?;
    Ok(words)
}
