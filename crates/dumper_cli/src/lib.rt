//! `mydumper`: one table of a server, written into a folder as a file of SQL statements.
#![tactic(auto)]

mod column;
mod columns;
mod conversation;
mod copy;
mod data_file;
mod dump;
mod fault;
mod laws;
mod row_text;
mod texts;
mod top;
mod words;

pub use column::{Column, ColumnList};
pub use laws::{a_conversation_has_one_outcome, all_is_said};
pub use top::mydumper;
