//! The words of both programs' command lines, read: what they ask for, or why they aren't read.
//!
//! - `options`: the options of both programs, as tables.
//! - `command`: a table as a command of `clap`, and what `clap` finds in the words.
//! - `values`: texts, flags and numbers out of that.
//! - `entries`: lists, divided at commas.
//! - `login`, `dump`, `load`: what a command line asks for.
//! - `fault`: why words aren't read.
//! - `laws`: a law of the definitions.
#![tactic(auto)]

mod command;
mod dump;
mod entries;
mod fault;
mod laws;
mod load;
mod login;
mod options;
mod values;

pub use dump::{DumpLimits, DumpWords, read_dump_words};
pub use fault::WordsFault;
pub use laws::both_commands_are_simple;
pub use load::{LoadWords, Renaming, read_load_words};
pub use login::ServerLogin;
