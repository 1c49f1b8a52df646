//! What ends a statement.

/// What ends a statement.
#[derive(Clone, Copy)]
pub enum Delimiter {
    /// A `;` that is in no quotes and in no comment.
    Semicolon,
    /// So many dollars on a line of their own.
    Dollars(usize),
}
