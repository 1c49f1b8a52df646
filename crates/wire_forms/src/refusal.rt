//! ERR packets.
use crate::short_text::ShortText;

/// What a server says in an ERR packet. (MySQL source documentation, `ERR_Packet`.)
#[derive(Clone, Copy, Debug)]
pub struct Refusal {
    /// The number of the error, as 1146 for a table that doesn't exist.
    pub code: u16,
    /// The SQL state, as `42S02`; `HY000` where the packet has none.
    pub state: [u8; 5],
    /// The message, of which 512 bytes are kept.
    pub message: ShortText,
}
