//! What a MySQL server holds, as plain data: objects and rows, the changes that transactions make, and
//! histories of transactions. A history is folded to the database after it, and changes are made one by
//! one or told to fit without being made; databases are compared, names are matched with patterns, and what
//! a choice selects of a database is taken out. Nothing here talks to a server.
#![tactic(auto)]

mod agreement;
mod equal;
mod find;
mod fitting;
mod fold;
mod lists;
mod names;
mod pattern;
mod selection;

pub use agreement::agree;
pub use find::{is_object, is_of_table, object_in};
pub use fitting::may_apply;
pub use fold::{apply_changes, plain_count, replay};
pub use names::escaped_length;
pub use pattern::pattern_matches;
pub use selection::select;
pub use server_data::{
    CellList, Change, ChangeList, Choice, Database, History, Need, NeedList, Object, ObjectList,
    Position, RowList, Settings, TableList, TableRows, Transaction,
};
