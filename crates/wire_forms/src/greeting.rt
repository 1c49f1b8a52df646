//! The greeting of a server.
use crate::ends::Ends;
use crate::short_text::ShortText;

/// What a server says first. (MySQL source documentation, `Protocol::HandshakeV10`.)
#[derive(Clone, Copy)]
pub struct Greeting {
    /// The server's version, of which 512 bytes are kept.
    pub version: ShortText,
    /// The bytes that `native_answer` answers.
    pub scramble: [u8; 20],
    /// The plugin that the server proposes, of whose name 512 bytes are kept; `mysql_native_password`
    /// where it has none to choose from.
    pub plugin: ShortText,
    /// `Ok` exactly where the server offers to end result sets so. (`CLIENT_DEPRECATE_EOF`.)
    pub ends: Ends,
    /// Whether the version is 8.2 or a later one, which have `SHOW BINARY LOG STATUS`. It is told by the
    /// first two numbers of the whole version: one to nine digits, a dot, and digits, of which nine
    /// count. A version of another form is not newer. (MySQL Reference Manual, `SHOW BINARY LOG STATUS`.)
    pub newer: bool,
}
