//! What the texts that SHOW CREATE gives say, as definitions: tokens, heads and where their names stand, the
//! shapes, the keys and the counters of tables; and the types of kinds, places, columns and shapes.
//! `sql_tokens` and `object_texts` read them.
#![tactic(auto)]

mod kind;
mod place;
mod shape;

pub use kind::Kind;
pub use place::Span;
pub use shape::{Column, ColumnList, IndexList, Shape};
