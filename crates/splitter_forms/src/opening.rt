//! What begins between statements.

use crate::delimiter::Delimiter;

/// What ends a comment.
#[derive(Clone, Copy)]
pub enum CommentEnd {
    LineFeed,
    StarSlash,
}

/// What begins between statements.
#[derive(Clone, Copy)]
pub enum Opening {
    /// There are no bytes.
    Nothing,
    /// A space, a tab, a line feed or a carriage return.
    White,
    /// A comment that begins with so many bytes.
    Comment(usize, CommentEnd),
    /// A line of so many bytes, which sets what ends a statement.
    DelimiterLine(usize, Delimiter),
    Statement,
    /// What more bytes decide.
    Undecided,
}
