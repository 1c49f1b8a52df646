//! The packets of the MySQL client/server protocol: length-encoded integers, the packets that a
//! message is sent in, and the messages of a stream of bytes that comes in any pieces.
//!
//! A packet has at most 16,777,215 payload bytes. One with so many is continued by the next packet; the
//! last packet of a message has fewer, perhaps none.
#![tactic(auto)]

mod frame;
mod frames;
mod laws;
mod lenenc;
mod skim;

pub use frame::{frame_into, header};
pub use frames::{FrameFault, Frames, Message};
pub use laws::{a_front_is_one_thing, lenenc_is_read_back, packets_are_prefix_free};
pub use lenenc::{lenenc_into, lenenc_read};
pub use skim::Skim;
