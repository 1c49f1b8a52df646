//! Plain data: bytes, names and lists that can be copied, buffers with reserved room, and the one error
//! of a call that only memory can refuse.
//!
//! Every list of names, numbers, rows or messages of the other crates is a [`PlainList`] of its
//! members. Contracts see it as the list of them.
#![tactic(auto)]

mod buffer;
mod bytes;
mod list;
mod memory;

pub use buffer::Buffer;
pub use bytes::{Bytes, Name, NameList, NumberList};
pub use list::{Plain, PlainList};
pub use memory::OutOfMemory;
