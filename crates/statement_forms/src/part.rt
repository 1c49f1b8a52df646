//! The variable parts of statements.
ghost use Rattle.std.specs.Prelude.{◌≡◌, IfOk};

use plain_data::{Bytes, OutOfMemory, Plain, PlainList};
use std::alloc::Global;
use std::marker::Model;

#[derive(Drop)]
enum Held<'a> {
    Borrowed(&'a [u8]),
    Owned(Bytes),
}

/// A name or the value of a text literal in a statement: its bytes, without quotes and escapes,
/// borrowed or owned.
#[derive(Drop)]
pub struct Part<'a> {
    held: Held<'a>,
}

impl<'a> Model for Part<'a> {
    ghost use Rattle.std.specs.Prelude.{List, ℕ};
    ghost use Rattle.statement_forms.specs.Held.{held_bytes};

    ghost Value = { List ℕ };

    ghost view = { λ p. held_bytes p.held };
}

impl<'a> Part<'a> {
    /// Borrows the bytes. Takes no memory.
    pub fn of(bytes: &'a [u8]) -> Part<'a>
        ensures { result ≡ bytes.now }
    {
        Part {
            held: Held::Borrowed(bytes),
        }
    }

    /// Takes the bytes, as of a name in which a quote was escaped. Takes no memory.
    pub fn owned(bytes: Bytes) -> Part<'a>
        ensures { result ≡ bytes }
    {
        Part {
            held: Held::Owned(bytes),
        }
    }

    /// The bytes. Takes no memory.
    pub fn bytes(&self) -> &[u8]
        ensures { result.now ≡ self.now }
    {
        match &self.held {
            Held::Borrowed(bytes) => bytes,
            Held::Owned(bytes) => bytes.as_slice(),
        }
    }
}

// A copy of a borrowed part borrows the same bytes, and takes no memory.
impl<'a> Plain for Part<'a> {
    fn duplicate(&self) -> Result<Part<'a>, OutOfMemory> {
        let held = match &self.held {
            Held::Borrowed(bytes) => Held::Borrowed(bytes),
            Held::Owned(bytes) => Held::Owned(bytes.copy()?),
        };
        Ok(Part { held })
    }
}

/// A list of parts, as the names of columns.
pub type PartList<'a> = PlainList<Part<'a>>;

/// The whole text of a statement, borrowed.
#[derive(Drop)]
pub struct WholeText<'a> {
    bytes: &'a [u8],
}

impl<'a> Model for WholeText<'a> {
    ghost use Rattle.std.specs.Prelude.{List, ℕ};

    ghost Value = { List ℕ };

    ghost view = { λ t. t.bytes.now };
}

impl<'a> WholeText<'a> {
    /// Borrows the text. Takes no memory.
    pub fn of(bytes: &'a [u8]) -> WholeText<'a>
        ensures { result ≡ bytes.now }
    {
        WholeText { bytes }
    }

    /// The text. Takes no memory.
    pub fn bytes(&self) -> &[u8]
        ensures { result.now ≡ self.now }
    {
        self.bytes
    }
}
