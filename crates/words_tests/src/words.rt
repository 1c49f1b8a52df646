//! The words of a case.
use plain_data::{Name, NameList, OutOfMemory};
use std::alloc::Global;

// How an empty word is written.
const EMPTY: &str = "''";

/// The words of a case, with a blank between them; none where the case is empty.
pub fn words_of(alloc: Global, case: &str) -> Result<NameList, OutOfMemory> {
    let mut words = NameList::new(alloc);
    if case.is_empty() {
        return Ok(words);
    }
    for word in case.split(' ') {
        let word = if word == EMPTY { "" } else { word };
        words.push(Name::of(alloc, word)?)?;
    }
    Ok(words)
}
