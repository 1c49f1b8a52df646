//! The words of cases: numbers, and bytes in percent-encoding.
use percent_encoding::{CONTROLS, percent_decode, percent_encode};
use plain_data::OutOfMemory;
use statement_splitter::SplitFault;
use std::alloc::{AllocError, AllocFailed, Global};
use thiserror::Error;

/// Why a file isn't divided to its end.
#[derive(Clone, Copy, Debug, Error)]
pub enum Stopped {
    #[error("{0}")]
    Memory(OutOfMemory),
    #[error("{0}")]
    Fault(SplitFault),
}

impl From<OutOfMemory> for Stopped {
    fn from(why: OutOfMemory) -> Self {
        Stopped::Memory(why)
    }
}

impl From<SplitFault> for Stopped {
    fn from(why: SplitFault) -> Self {
        Stopped::Fault(why)
    }
}

impl From<AllocError> for Stopped {
    fn from(_: AllocError) -> Self {
        Stopped::Memory(OutOfMemory)
    }
}

impl<T: Drop> From<AllocFailed<T>> for Stopped {
    fn from(_: AllocFailed<T>) -> Self {
        Stopped::Memory(OutOfMemory)
    }
}

/// The bytes that a word spells. It is refused only for want of memory.
pub fn bytes_of(alloc: Global, word: &str) -> Result<Vec<u8>, OutOfMemory> {
    let mut bytes = Vec::new(alloc);
    percent_decode(word.as_bytes()).append_to(&mut bytes)?;
    Ok(bytes)
}

/// Adds bytes in percent-encoding: controls, bytes past 0x7e and the percent sign are spelled. It is refused
/// only for want of memory.
pub fn add_bytes(words: &mut String, bytes: &[u8]) -> Result<(), OutOfMemory> {
    percent_encode(bytes, CONTROLS.add(b'%')).append_to(words)?;
    Ok(())
}

/// Adds a text as it is. It is refused only for want of memory.
pub fn add_text(words: &mut String, text: &str) -> Result<(), OutOfMemory> {
    words.push_str(text)?;
    Ok(())
}

/// An equal text. It is refused only for want of memory.
pub fn text_of(alloc: Global, text: &str) -> Result<String, OutOfMemory> {
    Ok(String::from_str(alloc, text)?)
}

/// The first word, and what stands after it. Takes no memory.
pub fn first_and_rest(words: &str) -> (&str, &str) {
    words.split_once(' ').unwrap_or((words, ""))
}

/// The number that stands first, and what stands after it. A word that is no number is 0. Takes no memory.
pub fn number_and_rest(words: &str) -> (u32, &str) {
    let (word, rest) = first_and_rest(words);
    (word.parse().unwrap_or(0), rest)
}
