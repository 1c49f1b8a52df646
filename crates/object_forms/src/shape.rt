//! Columns and shapes of tables.
ghost use Rattle.std.specs.Prelude.{◌≡◌, IfOk};

use plain_data::{Bytes, Name, OutOfMemory, Plain, PlainList};

/// A column of a table.
#[derive(Debug, Drop)]
pub struct Column {
    /// Its name, in which a backquote stands once.
    pub name: Name,
    /// The letters of the type word, in lower case, without what stands after them: `int`,
    /// `varchar`; `int` for `integer`; empty where no word stands there.
    pub data_type: Bytes,
    /// Whether UNSIGNED stands after the type.
    pub unsigned: bool,
    /// Whether GENERATED ALWAYS AS stands after the type.
    pub generated: bool,
}

impl Column {
    /// An equal column. It is refused only for want of memory.
    pub fn copy(&self) -> Result<Column, OutOfMemory>
        ensures { IfOk result (λ made. made ≡ self.now) }
    {
        Ok(Column {
            name: self.name.copy()?,
            data_type: self.data_type.copy()?,
            unsigned: self.unsigned,
            generated: self.generated,
        })
    }
}

impl Plain for Column {
    fn duplicate(&self) -> Result<Column, OutOfMemory> {
        self.copy()
    }
}

/// A list of columns.
pub type ColumnList = PlainList<Column>;

/// A list of indices of columns among a table's columns.
pub type IndexList = PlainList<u32>;

/// A table's columns, its key and its engine.
#[derive(Debug, Drop)]
pub struct Shape {
    /// From 1 to 65,535 columns, in the order of the text.
    pub columns: ColumnList,
    /// Which column is the key: the only one of PRIMARY KEY, where it is plain and an integer.
    pub key: Option<u32>,
    /// The engine, as it is spelled.
    pub engine: Bytes,
}
