//! The statements that both programs send, as types, and the definitions of their texts. `sql_statements`
//! writes them, and `statement_reading` reads them.
#![tactic(auto)]

mod command;
mod form;
mod number_row;
mod part;
mod query;
mod statement;

pub use command::Command;
pub use form::Form;
pub use number_row::NumberRow;
pub use part::{Part, PartList, WholeText};
pub use query::Query;
pub use statement::Statement;
