//! The login of the MySQL protocol, as calls over the payloads of its messages: the greeting, the
//! response to it, the answer of `mysql_native_password` to a scramble, and the request for another
//! plugin. Nothing is sent or received here.
#![tactic(auto)]

mod answer;
mod greeting;
mod payload;
mod response;
mod switch;
mod texts;
mod version;

pub use answer::native_answer;
pub use payload::LoginMessage;
pub use response::response_into;
pub use wire_forms::{Ends, Greeting, LoginFault, Switch};
