//! What the files of a dump say, as definitions and types: which object a schema file spells, which rows a
//! data file spells, the one text that is written for each, and where a file that spells nothing is refused.
//!
//! - `schema_file`: what a schema file says of an object beside its names.
#![tactic(auto)]

mod schema_file;

pub use schema_file::SchemaFile;
