//! Names and cells of SQL, and their spellings: quoted names and literals, appended to buffers with
//! reserved room, and literals as they are read back.
#![tactic(auto)]

mod converted;
mod dense;
mod escapes;
mod hexadecimal;
mod laws;
mod literal;
mod name;
mod number;
mod pairs;
mod reading;
mod special;
mod text;

pub use escapes::unescape;
pub use laws::{numbers_are_of_the_grammar, what_is_written_is_read_back};
pub use literal::{CellFault, NotANumber, cell_into, cell_length};
pub use name::{name_into, name_length};
pub use plain_data::{Buffer, Bytes, Name, NameList, NumberList, OutOfMemory, Plain, PlainList};
pub use reading::cell::{LiteralFault, literal_read};
pub use reading::literal::read_literal;
pub use reading::skip::literal_skip;
pub use reading::text::read_text;
pub use sql_cells::{Cell, CellKind};
pub use text::text_length_checked;
