//! The words of cases, and what they stand for.

use plain_data::{NumberList, OutOfMemory};
use std::alloc::Global;

/// The first word, and what stands after its space.
pub fn first_word(words: &str) -> (&str, &str) {
    match words.split_once(' ') {
        Some(parts) => parts,
        None => (words, ""),
    }
}

/// A text of its own.
pub fn said(alloc: Global, text: &str) -> Result<String, OutOfMemory> {
    Ok(String::from_str(alloc, text)?)
}

/// Numbers with spaces; a word that is no number stands for none.
pub fn numbers_of(alloc: Global, words: &str) -> Result<NumberList, OutOfMemory> {
    let mut numbers = NumberList::new(alloc);
    for word in words.split(' ') {
        if let Ok(number) = word.parse() {
            numbers.push(number)?;
        }
    }
    Ok(numbers)
}
