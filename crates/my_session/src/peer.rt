//! What a session follows of its server.
use wire_forms::Ends;

/// What a session follows of its server, as the greeting said it.
#[derive(Clone, Copy, Debug, PartialEq, Eq)]
pub struct Peer {
    /// How its result sets end.
    pub ends: Ends,
    /// Whether it is of version 8.2 or newer.
    pub newer: bool,
}
