//! Chunks of a table's rows by a key of two to four columns.
//!
//! - `wide_key`: which columns of a table are such a key.
#![tactic(auto)]

mod wide_key;

pub use chunk_forms::{WideChunk, WideChunkList};
pub use wide_key::wide_key_of;
