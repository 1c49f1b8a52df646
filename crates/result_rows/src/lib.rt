//! Replies of a MySQL server, message by message: OK, ERR, and text result sets, whose cells are
//! handed out of the received bytes without a copy.
#![tactic(auto)]

mod fields;
mod laws;
mod reader;
mod refusal;
mod row;

pub use fields::is_ok_packet;
pub use laws::{a_front_tells_a_reply, a_whole_result_set_is_what_the_reader_takes};
pub use reader::{ReplyFault, RowReader, Turn, TurnKind};
pub use refusal::refusal_read;
pub use row::{Cells, Row};
pub use wire_forms::{Ends, Refusal, Reply, ShortText};
