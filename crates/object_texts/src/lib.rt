//! The texts that SHOW CREATE gives: which object each makes and where its name stands, and of a
//! table the columns, the key, the engine and the counter, by its tokens.
#![tactic(auto)]

mod check;
mod column;
mod counter;
mod head;
mod items;
mod key;
mod place;
mod shape;
mod table;

pub use check::check_head;
pub use counter::{Counter, counter_of};
pub use head::{Head, head_of, trigger_table};
pub use object_forms::{Column, ColumnList, IndexList, Kind, Shape, Span};
pub use place::{name_span, names_are_replaced, names_stand, quoted_names_end};
pub use shape::{key_columns, shape_of};
