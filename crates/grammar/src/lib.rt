//! Grammars: how far bytes go along with a language, and readers whose answer is exactly that.
//!
//! A language is a set of lists of bytes. A reader of a language says how far the bytes begin one of
//! its texts, and whether that prefix is one: where a text is refused, the place is the length of
//! the longest prefix with which some text begins. The laws in `proofs/` put readers together, so
//! that a reader of a grammar costs a line for each of its parts.
#![tactic(auto)]

mod laws;
mod reader;

pub use laws::{HasTexts, one_longest, one_place, one_reading};
pub use reader::{after, first_byte, optional, read_fixed};
