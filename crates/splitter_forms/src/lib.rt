//! How a file of SQL is divided into its statements, as definitions and types: what ends a statement, what is
//! passed over between two of them, and where each begins. `statement_splitter` divides a file as its bytes come.
//!
//! - `delimiter`: what ends a statement.
//! - `opening`: what begins between statements.
//! - `within`: where a byte of a statement stands.
#![tactic(auto)]

mod delimiter;
mod opening;
mod within;

pub use delimiter::Delimiter;
pub use opening::{CommentEnd, Opening};
pub use within::Within;
