//! Kinds of files.
use object_forms::Kind;

/// What a file of a dump holds.
#[derive(Clone, Copy, Debug, PartialEq, Eq)]
pub enum FileKind {
    /// The text of an object of that kind.
    Object(Kind),
    /// Rows of a table.
    Rows,
}
