//! Names of the files of a dump, made of what they name and read from their texts, and the file
//! `metadata`, written and read.
//!
//! - `file_name`: `FileName::of` and `FileName::read`, which the trait `FileNameText` has.
//! - `spelling`: names as they are spelled in names of files.
//! - `numbers`: numbers of files.
//! - `division`: the name of a file divided into its parts.
//! - `writing`: `write_into`; `reading`: `read`, in the stages of `heads`, `positions` and files.
//! - `file_lines`: lines of files, written and read; `orders`: whether they stand in their order.
//! - `tables`: the tables of files, with their rows.
//! - `times`, `decimals`, `cuts`: times, numbers, and texts that are cut at a byte.
//! - `laws`: a text is of one value, a value has one text, and a text has one bad line.
//! - `fault`: why a name or a `metadata` isn't read.
#![tactic(auto)]

mod cuts;
mod decimals;
mod division;
mod fault;
mod file_lines;
mod file_name;
mod heads;
mod laws;
mod numbers;
mod orders;
mod positions;
mod reading;
mod spelling;
mod tables;
mod times;
mod writing;

pub use fault::{MetadataFault, NameFault};
pub use file_name::{FileNameText, one_file};
pub use laws::{one_bad_line, one_text, one_value};
pub use reading::read;
pub use writing::write_into;
