//! The first messages of replies.
use crate::refusal::Refusal;

/// The first message of a reply to a query. (MySQL source documentation, `COM_QUERY Response`.)
#[derive(Clone, Copy)]
pub enum Reply {
    /// An OK: the reply ends here.
    Done,
    /// An ERR: the reply ends here.
    Refused(Refusal),
    /// A result set of so many columns begins.
    Columns(u32),
}
