//! The chunks between bounds.
use crate::words::plain;
use key_chunks::{Chunk, ChunkBuilder, ChunkList};
use plain_data::OutOfMemory;
use std::alloc::Global;
use std::fmt::Write;

// The chunks between the bounds that the words say.
fn chunks(alloc: Global, bounds: &str) -> Result<ChunkList, OutOfMemory> {
    let mut builder = ChunkBuilder::new(alloc);
    for word in bounds.split(' ') {
        if let Ok(bound) = word.parse::<i64>() {
            builder.end_at(i128::from(bound))?;
        }
    }
    builder.into_chunks()
}

fn push_bound(words: &mut String, bound: Option<i128>) -> Result<(), OutOfMemory> {
    if let Some(bound) = bound {
        write!(words, "{bound}")?;
    }
    Ok(())
}

// The bounds of a chunk, and whether it holds 0.
fn push_chunk(words: &mut String, chunk: &Chunk) -> Result<(), OutOfMemory> {
    words.push(' ')?;
    push_bound(words, chunk.above)?;
    words.push_str("..")?;
    push_bound(words, chunk.upto)?;
    if chunk.holds(0) {
        words.push_str(" with 0,")?;
    }
    Ok(())
}

/// The chunks between bounds, and which of them holds 0. It is refused only for want of memory.
pub fn chunk_words(alloc: Global, bounds: &str) -> Result<String, OutOfMemory> {
    let chunks = chunks(alloc, bounds)?;
    let mut words = plain(alloc, "chunks")?;
    for chunk in chunks.as_slice() {
        push_chunk(&mut words, chunk)?;
    }
    Ok(words)
}
