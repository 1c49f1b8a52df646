//! Why a login ends.
use crate::refusal::Refusal;
use crate::short_text::ShortText;
use thiserror::Error;

/// Why a message of the server can't be answered in a login.
#[derive(Clone, Copy)]
pub enum LoginFault {
    /// The server's first message is of this protocol version. (MySQL source documentation,
    /// `Protocol::HandshakeV9`.)
    NotProtocol10(u8),
    /// The server asks for this plugin, of whose name 512 bytes are kept.
    PluginUnsupported(ShortText),
    /// The server answered this ERR in the greeting's place.
    Refused(Refusal),
    /// A message has another form than it may have in its place.
    Garbled,
}
