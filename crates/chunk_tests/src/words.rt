//! Words as the cases have them.
use plain_data::OutOfMemory;
use std::alloc::Global;

/// The text as it is. It is refused only for want of memory.
pub fn plain(alloc: Global, text: &str) -> Result<String, OutOfMemory> {
    Ok(String::from_str(alloc, text)?)
}
