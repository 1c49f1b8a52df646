//! Kinds of literals.

/// How a column's cells are written.
#[derive(Clone, Copy, Debug, PartialEq, Eq)]
pub enum CellKind {
    /// As a number, with no quotes.
    Number,
    /// As text between single quotes.
    Text,
    /// As hexadecimal digits between X' and a quote.
    Hex,
    /// As a JSON text: `CONVERT(`, its text between single quotes, and ` USING utf8mb4)`.
    Converted,
}
