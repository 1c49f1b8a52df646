//! Chunks of a table's rows by its key, made from the bounds between them.
//!
//! - `builder`: the chunks between bounds that are given one after another.
#![tactic(auto)]

mod builder;

pub use builder::ChunkBuilder;
pub use chunk_forms::{Chunk, ChunkList, KeyRange};
