//! The messages of the MySQL protocol, as definitions: packets, replies and logins, and the types of what
//! they say. `my_packets`, `result_rows` and `my_login` write and read them.
#![tactic(auto)]

mod ends;
mod greeting;
mod login_fault;
mod refusal;
mod reply;
mod short_text;
mod switch;

pub use ends::Ends;
pub use greeting::Greeting;
pub use login_fault::LoginFault;
pub use refusal::Refusal;
pub use reply::Reply;
pub use short_text::ShortText;
pub use switch::Switch;
