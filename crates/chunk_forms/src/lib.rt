//! Chunks of a table's rows by its key, as types and definitions: ranges of keys that follow one another,
//! with bounds between them at every r-th key; and the laws of what the chunks hold. No call takes
//! memory.
//!
//! - `key_range`: ranges of keys of one column, and of two to four.
//! - `laws`: each key is in exactly one chunk, and each chunk but the last has r keys.
#![tactic(auto)]

mod key_range;
mod laws;

pub use key_range::{Chunk, ChunkList, KeyRange, WideChunk, WideChunkList};
pub use laws::{
    bounds_rise, keys_are_cut, keys_are_in_one_chunk, wide_bounds_rise, wide_keys_are_cut,
    wide_keys_are_in_one_chunk,
};
