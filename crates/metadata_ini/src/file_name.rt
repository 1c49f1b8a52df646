//! Names of files, written and read.
ghost use Rattle.std.specs.Prelude.{◌≡◌, ◌++◌, ℕ, List, IsUtf8, IfErr, IfOk, OnOk};
ghost use Rattle.folder_forms.specs.FileName.{HasFileName, IsFileName, IsNoFileName, NamedFile, ending, file_of, file_text, front_names};
ghost use Rattle.folder_forms.specs.FileName.{is_schema_file};
ghost use Rattle.folder_forms.specs.declared.file_kind.FileKind.TheVariants.{Object};
ghost use Rattle.metadata_ini.specs.Fault.{IsNoName};

use crate::division::divide;
use crate::fault::NameFault;
use crate::numbers::append_file_number;
use crate::spelling::{append, append_name, read_name};
use folder_forms::{FileKind, FileName};
use object_forms::Kind;
use plain_data::{Buffer, Name, OutOfMemory};
use std::alloc::Global;

/// Names of files, from what they name and from their texts.
pub trait FileNameText {
    /// The name of the file of an object, or of the file of that number of a table's rows. Schema and
    /// name are UTF-8 and not empty, for a schema the name is the schema, and the number is 0 but
    /// for rows. It is refused only for want of memory.
    fn of(
        alloc: Global,
        kind: FileKind,
        schema: &[u8],
        name: &[u8],
        number: u32,
    ) -> Result<FileName, OutOfMemory>
        requires { HasFileName (file_of kind schema.now name.now number) }
        ensures { IfOk result (λ made. made ≡ file_of kind schema.now name.now number) };

    /// The name that has this text. `NotAName` comes exactly where no file is called so: where a byte
    /// is escaped that needn't be, a digit of an escaped byte is in upper case, a name is empty or
    /// isn't UTF-8, or the number has fewer than five digits, needless zeros or is 2^32 or more.
    /// `OutOfMemory` is the other refusal.
    fn read(alloc: Global, text: &[u8]) -> Result<FileName, NameFault>
        ensures ok { IfOk result (λ file. IsFileName text.now file) }
        ensures err { IfErr result (IsNoName (IsNoFileName text.now)) };
}

// How the name of a file ends that holds an object.
fn object_ending(kind: Kind) -> &'static [u8]
    ensures { (number : _) → result.now ≡ ending (Object kind) number }
{
    match kind {
        Kind::Schema => b"-schema-create.sql",
        Kind::Table => b"-schema.sql",
        Kind::Procedure => b"-schema-procedure.sql",
        Kind::Function => b"-schema-function.sql",
        Kind::View => b"-schema-view.sql",
        Kind::Trigger => b"-schema-trigger.sql",
        Kind::Event => b"-schema-event.sql",
    }
}

// Whether it is the file of a schema.
fn is_schema_file(kind: FileKind) -> bool
    ensures { result ≡ is_schema_file kind }
{
    match kind {
        FileKind::Object(Kind::Schema) => true,
        FileKind::Object(
            Kind::Table
            | Kind::Procedure
            | Kind::Function
            | Kind::View
            | Kind::Trigger
            | Kind::Event,
        )
        | FileKind::Rows => false,
    }
}

// Appends what the name of a file begins with.
fn append_names(
    kind: FileKind,
    schema: &[u8],
    name: &[u8],
    out: &mut Buffer,
) -> Result<(), OutOfMemory>
    ensures { OnOk result (out.new.bytes ≡ out.old.bytes ++ front_names kind schema.now name.now) }
{
    append_name(schema, out)?;
    if !is_schema_file(kind) {
        append(b".", out)?;
        append_name(name, out)?;
    }
    Ok(())
}

// Appends how the name of a file ends.
fn append_ending(kind: FileKind, number: u32, out: &mut Buffer) -> Result<(), OutOfMemory>
    ensures { OnOk result (out.new.bytes ≡ out.old.bytes ++ ending kind number) }
{
    match kind {
        FileKind::Object(kind) => append(object_ending(kind), out),
        FileKind::Rows => {
            append(b".", out)?;
            append_file_number(number, out)?;
            append(b".sql", out)
        }
    }
}

// The text as a name.
fn text_name(alloc: Global, text: &[u8]) -> Result<Name, OutOfMemory>
    requires { IsUtf8 text.now }
    ensures { IfOk result (λ name. name ≡ text.now) }
{
    match std::str::from_utf8(text) {
        Ok(text) => Name::of(alloc, text),
        Err(_) => unreachable!(),
    }
}

// What a file is called.

fn file_text(
    alloc: Global,
    kind: FileKind,
    schema: &[u8],
    name: &[u8],
    number: u32,
) -> Result<Name, OutOfMemory>
    requires { HasFileName (file_of kind schema.now name.now number) }
    ensures { IfOk result (λ text. text ≡ file_text kind schema.now name.now number) }
{
    let mut out = Buffer::new(alloc);
    append_names(kind, schema, name, &mut out)?;
    append_ending(kind, number, &mut out)?;
    text_name(alloc, out.as_slice())
}

impl FileNameText for FileName {
    fn of(
        alloc: Global,
        kind: FileKind,
        schema: &[u8],
        name: &[u8],
        number: u32,
    ) -> Result<FileName, OutOfMemory> {
        let text = file_text(alloc, kind, schema, name, number)?;
        let schema = text_name(alloc, schema)?;
        let name = text_name(alloc, name)?;
        Ok(FileName::from_parts(kind, schema, name, number, text))
    }

    fn read(alloc: Global, text: &[u8]) -> Result<FileName, NameFault> {
        let Some(parts) = divide(text) else {
            return Err(NameFault::NotAName);
        };
        let schema = read_name(alloc, parts.schema)?;
        let name = read_name(alloc, parts.name)?;
        let text = text_name(alloc, text)?;
        Ok(FileName::from_parts(parts.kind, schema, name, parts.number, text))
    }
}

/// A law: a text is the name of one file at most. Does nothing.
pub fn one_file()
    ensures { (text : List ℕ) (a b : NamedFile) → IsFileName text a → IsFileName text b → a ≡ b }
{}
