//! Sessions with a MySQL server: logging in, running commands, and asking for rows, which are handed
//! out one by one as they come.
#![tactic(auto)]

mod channel;
mod fault;
mod laws;
mod limits;
mod login;
mod peer;
mod ranges;
mod reads;
mod receiving;
mod rows;
mod run;
mod sender;
mod session;

pub use fault::SessionFault;
pub use laws::{
    asking_keeps_own, asking_keeps_what_is_shown, limits_are_these, rows_come_from_what_is_shown,
    what_comes_next_is_one_thing,
};
pub use limits::{MESSAGE_LIMIT, SESSION_LIMIT};
pub use peer::Peer;
pub use reads::Reads;
pub use session::Session;
