//! The statements that both programs send: what each says, and its one text.
#![tactic(auto)]

mod command_writing;
mod piece;
mod query_writing;

pub use command_writing::command_into;
pub use query_writing::query_into;
pub use statement_forms::{Command, Form, NumberRow, Part, PartList, Query, Statement, WholeText};
