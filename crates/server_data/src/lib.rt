//! What a MySQL server holds, as plain data: objects and rows, the changes that transactions make, and
//! histories of transactions; and the definitions of the database after a history, of agreement, of
//! patterns of names and of what a choice selects. `server_model` computes them. Nothing here talks to
//! a server.
#![tactic(auto)]

mod choice;
mod data;
mod laws;
mod rows;

pub use choice::Choice;
pub use data::{
    Change, ChangeList, Database, History, Need, NeedList, Object, ObjectList, Position, Settings,
    TableList, TableRows, Transaction,
};
pub use laws::{
    a_history_is_its_prefix, an_object_equals_itself, kinds_are_told_apart,
    one_after_the_other_interleaves, patterns_are_replaced, prefixes_of_prefixes,
    settings_are_told_apart, what_steps_keep_holds_at_the_end,
};
pub use rows::{CellList, RowList};
