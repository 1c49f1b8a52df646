//! How result sets end.

/// The packets that end the result sets of a session. (MySQL source documentation, `CLIENT_DEPRECATE_EOF`.)
#[derive(Clone, Copy, Debug, PartialEq, Eq)]
pub enum Ends {
    /// An EOF after the column definitions, and an EOF after the rows.
    Eof,
    /// Nothing after the column definitions, and an OK with the header 0xfe after the rows.
    Ok,
}
