//! Parts of texts.
/// A part of a text: where it begins, and how long it is.
#[derive(Clone, Copy, Debug, PartialEq, Eq)]
pub struct Span {
    /// How many bytes stand before it.
    pub before: usize,
    /// How many bytes it has.
    pub size: usize,
}
