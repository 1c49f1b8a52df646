//! Cells of rows and the kinds of their literals: the types, and the definitions of which bytes spell
//! which cell. `sql_literals` writes and reads them.
#![tactic(auto)]

mod cell;
mod cell_kind;

pub use cell::Cell;
pub use cell_kind::CellKind;
