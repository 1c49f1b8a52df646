//! The two programs.

/// A program that reports how its run ended.
#[derive(Clone, Copy)]
pub enum Program {
    /// `mydumper`, which writes databases into a folder.
    Mydumper,
    /// `myloader`, which makes databases of such a folder.
    Myloader,
}
