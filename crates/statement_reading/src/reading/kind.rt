//! The variable parts of statements.

/// What a variable part of a text is.
#[derive(Clone, Copy)]
pub(crate) enum PartKind {
    /// A name between backquotes.
    Name,
    /// Names between backquotes, with commas between them.
    NameList,
    /// Two to four names between backquotes, with commas between them.
    Keys,
    /// A text between single quotes.
    TextLiteral,
    /// 40 lower-case hexadecimal digits.
    Digest,
    /// A number of 64 bits.
    Count,
    /// A number of 128 bits, with its sign.
    Bound,
    /// Numbers of 128 bits with commas between them, as many as there are names in the part of
    /// this index.
    Bounds(usize),
}
