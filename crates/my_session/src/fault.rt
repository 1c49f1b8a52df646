//! Why a call of a session didn't end well.
ghost use Rattle.std.specs.Prelude.{◌≡◌};

use statement_forms::Form;
use thiserror::Error;
use wire_forms::{Refusal, ShortText};

/// Why a call of a session didn't end well. After each but `Refused` the session has failed.
#[derive(Clone, Copy, Debug, Error)]
pub enum SessionFault {
    /// The link failed, and has counted it.
    #[error("the connection failed")]
    Link,
    /// The server answered a statement of this form by this ERR.
    #[error("the server refused {}: {} ({}): {}", .0.word(), .1.code, .1.state.escape_ascii(), .1.message.as_slice().escape_ascii())]
    Refused(Form, Refusal),
    /// A message of the server breaks the sequence or spells nothing in its place. The number is that
    /// of the bytes of the session that came before it.
    #[error("the server's message at byte {0} is garbled")]
    Garbled(u64),
    /// The server's first message is of this version of the protocol.
    #[error("the server speaks protocol version {0} in place of 10")]
    NotProtocol10(u8),
    /// The server wants the login by this plugin.
    #[error("the server asks for the plugin {}, which isn't supported", .0.as_slice().escape_ascii())]
    PluginUnsupported(ShortText),
    /// A message has so many bytes, which are more than 67,108,864.
    #[error("a message of {0} bytes is too long")]
    TooLong(u64),
    /// 2^62 bytes were read on the session.
    #[error("the server sent too many bytes")]
    StreamTooLong,
    /// Memory ran out.
    #[error("out of memory")]
    OutOfMemory,
}

/// Why a payload wasn't sent, or no message came: the faults of [`SessionFault`] of the same names. It is
/// small, since a call that hears a row may answer it.
#[derive(Clone, Copy)]
pub enum ChannelFault {
    Link,
    Garbled(u64),
    TooLong(u64),
    StreamTooLong,
    OutOfMemory,
}

impl ChannelFault {
    ghost use Rattle.my_session.specs.Fault.{session_fault};

    /// What a session answers where its channel answers this. Takes no memory.
    #[cold]
    #[inline(never)]
    pub fn session_fault(self) -> SessionFault
        ensures { result ≡ session_fault self }
    {
        match self {
            ChannelFault::Link => SessionFault::Link,
            ChannelFault::Garbled(place) => SessionFault::Garbled(place),
            ChannelFault::TooLong(size) => SessionFault::TooLong(size),
            ChannelFault::StreamTooLong => SessionFault::StreamTooLong,
            ChannelFault::OutOfMemory => SessionFault::OutOfMemory,
        }
    }
}

impl SessionFault {
    ghost use Rattle.my_session.specs.Session.{ends_session};

    // Whether a session fails at it.
    pub(crate) fn ends_session(&self) -> bool
        ensures { result ≡ ends_session self.now }
    {
        match self {
            SessionFault::Refused(_, _) => false,
            SessionFault::Link
            | SessionFault::Garbled(_)
            | SessionFault::NotProtocol10(_)
            | SessionFault::PluginUnsupported(_)
            | SessionFault::TooLong(_)
            | SessionFault::StreamTooLong
            | SessionFault::OutOfMemory => true,
        }
    }
}
