//! Where a byte of a statement stands.

/// Where the next byte of a statement stands.
#[derive(Clone, Copy)]
pub enum Within {
    /// Neither in quotes nor in a comment.
    Text,
    /// The same, after a `-`.
    Dash,
    /// The same, after two of them.
    Dashes,
    /// The same, after a `/`.
    Slash,
    /// After a `/*`: with a `!` it goes on as text.
    Opened,
    /// In a comment up to `*/`.
    Comment,
    /// There, after a `*`.
    Star,
    /// In a comment up to the line's end.
    Line,
    /// In a string with that quote.
    Quoted(u8),
    /// There, after a backslash.
    Escaped(u8),
    /// In a name between backquotes.
    Name,
}
