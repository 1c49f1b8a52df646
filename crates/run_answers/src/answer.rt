//! What a run comes to.
use crate::fault::RunFault;

/// What a run of either program comes to.
#[derive(Drop)]
pub enum Answer {
    /// `mydumper` ended well: the selected tables, the rows of all files of rows, and the files without
    /// `metadata`.
    Dumped { tables: u64, rows: u64, files: u64 },
    /// `myloader` ended well: the files of rows that this run loaded, and those that an earlier run had.
    Loaded { loaded: u64, before: u64 },
    /// The run ended before its end.
    Failed(RunFault),
}
