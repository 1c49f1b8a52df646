//! The limits of a session.

/// The most bytes of a message, of either side.
pub const MESSAGE_LIMIT: u32 = 67108864;

/// The most bytes that are read on one session.
pub const SESSION_LIMIT: u64 = 4611686018427387904;

/// A payload of at most so many bytes, COM_QUERY and a text of 1,000, is sent without taking memory.
pub const SHORT_PAYLOAD: usize = 1001;

/// So many bytes are asked of the link at once.
pub const PIECE: usize = 1024;
