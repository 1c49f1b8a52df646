//! Names of files.
ghost use Rattle.std.specs.Prelude.{◌≡◌, IfOk};
ghost use Rattle.folder_forms.specs.FileName.{IsFileName, file_of};

use crate::file_kind::FileKind;
use plain_data::{Name, OutOfMemory, Plain};
use std::marker::Model;

/// The name of a file of a dump: of what kind it is, of which object, and for rows of a table the file's
/// number among those of its table. It keeps the text of the file's name beside these.
#[derive(Debug, Drop)]
pub struct FileName {
    kind: FileKind,
    schema: Name,
    name: Name,
    number: u32,
    text: Name,
}

impl Model for FileName {
    ghost use Rattle.folder_forms.specs.FileName.{NamedFile, IsFileName, file_of};

    ghost Value = { NamedFile };

    ghost view = { λ f. file_of f.kind f.schema f.name f.number };

    ghost invariant = { λ f. IsFileName f.text (file_of f.kind f.schema f.name f.number) };
}

impl FileName {
    /// The file name of these parts, where `text` is its text. Takes no memory.
    pub fn from_parts(kind: FileKind, schema: Name, name: Name, number: u32, text: Name) -> FileName
        requires { IsFileName text (file_of kind schema name number) }
        ensures { result ≡ file_of kind schema name number }
    {
        FileName {
            kind,
            schema,
            name,
            number,
            text,
        }
    }

    /// What the file holds. Takes no memory.
    pub fn kind(&self) -> FileKind
        ensures { result ≡ self.now.kind }
    {
        self.kind
    }

    /// The schema of the object. A schema is its own. Takes no memory.
    pub fn schema(&self) -> &Name
        ensures { result.now ≡ self.now.schema }
    {
        &self.schema
    }

    /// The name of the object, or of the table whose rows the file holds. Takes no memory.
    pub fn name(&self) -> &Name
        ensures { result.now ≡ self.now.name }
    {
        &self.name
    }

    /// The number of the file among those of its table's rows; 0 for other kinds. Takes no memory.
    pub fn number(&self) -> u32
        ensures { result ≡ self.now.number }
    {
        self.number
    }

    /// The file's name in its folder. Takes no memory.
    pub fn text(&self) -> &str
        ensures { IsFileName result.now self.now }
    {
        self.text.as_str()
    }

    /// An equal name. It is refused only for want of memory.
    pub fn copy(&self) -> Result<FileName, OutOfMemory>
        ensures { IfOk result (λ made. made ≡ self.now) }
    {
        Ok(FileName {
            kind: self.kind,
            schema: self.schema.copy()?,
            name: self.name.copy()?,
            number: self.number,
            text: self.text.copy()?,
        })
    }
}

impl Plain for FileName {
    fn duplicate(&self) -> Result<FileName, OutOfMemory> {
        self.copy()
    }
}
