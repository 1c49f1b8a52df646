//! The files of a dump, as definitions and types: which kinds of files there are, what a file is called,
//! and what the file `metadata` says of all others.
//!
//! - `file_kind`: what a file holds.
//! - `file_name`: the name of a file, with its text.
//! - `metadata`: the lines of files, and the whole of `metadata`.
//! - `moment`: the times in it.
#![tactic(auto)]

mod file_kind;
mod file_name;
mod metadata;
mod moment;

pub use file_kind::FileKind;
pub use file_name::FileName;
pub use metadata::{FileLine, FileLineList, Metadata};
pub use moment::Moment;
