//! Readers of the forms that several statements have.
ghost use Rattle.std.specs.Prelude.{◌≡◌, ◌++◌};
ghost use Rattle.sql_cells.specs.Literal.{text_literal};
ghost use Rattle.sql_cells.specs.Name.{quoted_name};
ghost use Rattle.statement_reading.specs.Readings.{IsRead};
ghost use Rattle.statement_forms.specs.Statement.{IsDigest};
ghost use Rattle.statement_forms.specs.Text.{dotted};

use crate::fault::StatementFault;
use crate::reading::kind::PartKind;
use crate::reading::slot::{Slot, read_shape};
use crate::reading::values::{Path, name_part, path_parts, path_texts, text_part};
use grammar::read_fixed;
use statement_forms::Part;
use std::alloc::Global;

/// One text.
pub(crate) fn fixed_form(text: &[u8], word: &[u8]) -> Result<(), StatementFault>
    ensures { IsRead (λ nothing bytes. bytes ≡ word.now) text.now result }
{
    let size = match read_fixed(text, word) {
        Ok(size) => size,
        Err(place) => return Err(StatementFault::BadStatement(place)),
    };
    if size == text.len() {
        Ok(())
    } else {
        Err(StatementFault::BadStatement(size))
    }
}

/// A text literal between words.
pub(crate) fn text_form<'a>(
    alloc: Global,
    text: &'a [u8],
    word: &'a [u8],
    tail: &'a [u8],
) -> Result<Part<'a>, StatementFault>
    ensures { IsRead (λ value bytes. bytes ≡ word.now ++ text_literal value ++ tail.now)
        text.now result }
{
    let shape = [
        Slot::Word(word),
        Slot::Part(PartKind::TextLiteral),
        Slot::Word(tail),
    ];
    match read_shape(text, &shape) {
        Ok(parts) => {
            let value = parts.get(0);
            Ok(text_part(alloc, value)?)
        }
        Err(place) => Err(StatementFault::BadStatement(place)),
    }
}

/// Two text literals among words: a schema, and the name of a table.
pub(crate) fn texts_form<'a>(
    alloc: Global,
    text: &'a [u8],
    word: &'a [u8],
    middle: &'a [u8],
    tail: &'a [u8],
) -> Result<Path<'a>, StatementFault>
    ensures { IsRead (λ path bytes. bytes ≡ word.now ++ text_literal path.schema ++ middle.now
        ++ text_literal path.name ++ tail.now) text.now result }
{
    let shape = [
        Slot::Word(word),
        Slot::Part(PartKind::TextLiteral),
        Slot::Word(middle),
        Slot::Part(PartKind::TextLiteral),
        Slot::Word(tail),
    ];
    match read_shape(text, &shape) {
        Ok(parts) => {
            let schema = parts.get(0);
            let name = parts.get(1);
            Ok(path_texts(alloc, schema, name)?)
        }
        Err(place) => Err(StatementFault::BadStatement(place)),
    }
}

/// A digest between quotes, between words.
pub(crate) fn digest_form<'a>(
    text: &'a [u8],
    word: &'a [u8],
    tail: &'a [u8],
) -> Result<Part<'a>, StatementFault>
    ensures { IsRead (λ digest bytes. IsDigest digest × (bytes ≡ word.now ++ digest ++ tail.now))
        text.now result }
{
    let shape = [
        Slot::Word(word),
        Slot::Part(PartKind::Digest),
        Slot::Word(tail),
    ];
    match read_shape(text, &shape) {
        Ok(parts) => {
            let digest = parts.get(0);
            Ok(Part::of(digest))
        }
        Err(place) => Err(StatementFault::BadStatement(place)),
    }
}

/// A name after a word.
pub(crate) fn name_form<'a>(
    alloc: Global,
    text: &'a [u8],
    word: &'a [u8],
) -> Result<Part<'a>, StatementFault>
    ensures { IsRead (λ name bytes. bytes ≡ word.now ++ quoted_name name) text.now result }
{
    let shape = [Slot::Word(word), Slot::Part(PartKind::Name)];
    match read_shape(text, &shape) {
        Ok(parts) => {
            let name = parts.get(0);
            Ok(name_part(alloc, name)?)
        }
        Err(place) => Err(StatementFault::BadStatement(place)),
    }
}

/// A schema, a dot and a name after a word.
pub(crate) fn path_form<'a>(
    alloc: Global,
    text: &'a [u8],
    word: &'a [u8],
) -> Result<Path<'a>, StatementFault>
    ensures { IsRead (λ path bytes. bytes ≡ word.now ++ dotted path.schema path.name)
        text.now result }
{
    let shape = [
        Slot::Word(word),
        Slot::Part(PartKind::Name),
        Slot::Word(b"."),
        Slot::Part(PartKind::Name),
    ];
    match read_shape(text, &shape) {
        Ok(parts) => {
            let schema = parts.get(0);
            let name = parts.get(1);
            Ok(path_parts(alloc, schema, name)?)
        }
        Err(place) => Err(StatementFault::BadStatement(place)),
    }
}
