//! The statements that both programs read: from a text to the one statement that it is, or to the
//! exact place where it leaves the statements; and the INSERTs of data files, with their rows counted.
//!
//! - `read`: `statement_read`, over all kinds of statements.
//! - `insert`: `insert_check`, and the readers of an INSERT's columns and rows.
//! - `reading`: the readers of names, text literals, numbers and shapes, and the statements made of them.
//! - `fault`: why a text isn't read.
#![tactic(auto)]

mod fault;
mod insert;
mod read;
mod reading;

pub use fault::StatementFault;
pub use insert::{InsertParts, insert_check};
pub use read::statement_read;
