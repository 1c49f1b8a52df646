//! The values of parts, made from their texts.
ghost use Rattle.std.specs.Prelude.{◌≡◌, ◌-◌, ◌<◌, ◌≤◌, ◌^◌, decimal, length, take, drop, pos, negsuc, IfOk};
ghost use Rattle.std.specs.Fmt.{signed_decimal};
ghost use Rattle.std.specs.List.{flat_map, list_any};
ghost use Rattle.sql_cells.specs.Literal.{text_literal};
ghost use Rattle.sql_cells.specs.Name.{name_byte, quoted_name};
ghost use Rattle.statement_forms.specs.Insert.{QuotedName};
ghost use Rattle.statement_reading.specs.Parts.{Names, WrittenText, DigestText, Within, BoundText};
ghost use Rattle.statement_reading.specs.Readings.{IsDoubled, IsKeyPath, IsKeyedSource, IsPath, IsPathOfTexts, IsSource, IsWideSource, has_byte};
ghost use Rattle.statement_forms.specs.Number.{IsI128};
ghost use Rattle.statement_forms.specs.Text.{names};

use crate::reading::names::read_name;
use crate::reading::numbers::read_number;
use plain_data::{Bytes, OutOfMemory, PlainList};
use sql_literals::unescape;
use statement_forms::{Part, PartList};
use std::alloc::Global;

/// A schema, and what stands in it.
#[derive(Drop)]
pub(crate) struct Path<'a> {
    pub(crate) schema: Part<'a>,
    pub(crate) name: Part<'a>,
}

/// A key, and its table.
#[derive(Drop)]
pub(crate) struct KeyPath<'a> {
    pub(crate) key: Part<'a>,
    pub(crate) path: Path<'a>,
}

/// Columns, and their table.
#[derive(Drop)]
pub(crate) struct Source<'a> {
    pub(crate) columns: PartList<'a>,
    pub(crate) path: Path<'a>,
}

/// Columns, their table, and its key.
#[derive(Drop)]
pub(crate) struct KeyedSource<'a> {
    pub(crate) source: Source<'a>,
    pub(crate) key: Part<'a>,
}

/// Columns, their table, and the columns of its key.
#[derive(Drop)]
pub(crate) struct WideSource<'a> {
    pub(crate) source: Source<'a>,
    pub(crate) keys: PartList<'a>,
}

fn has_byte(bytes: &[u8], byte: u8) -> bool
    ensures { result ≡ has_byte byte bytes.now }
{
    bytes.iter().any(|other| *other == byte)
}

// The bytes between the first and the last.
fn inside<'a>(text: &'a [u8]) -> &'a [u8]
    requires { 2 ≤ length text.now }
    ensures { result.now ≡ take (length text.now - 1 - 1) (drop 1 text.now) }
{
    &text[1..text.len() - 1]
}

// How many bytes a byte of a name has between backquotes.
fn name_byte_size(byte: u8) -> usize
    ensures { result ≡ length (name_byte byte) }
{
    if byte == b'`' { 2 } else { 1 }
}

// Each doubled backquote as one.
fn undouble(alloc: Global, inner: &[u8]) -> Result<Bytes, OutOfMemory>
    requires { IsDoubled inner.now }
    ensures { IfOk result (λ made. flat_map name_byte made ≡ inner.now) }
{
    let mut made = Vec::new(alloc);
    let mut at = 0;
    'bytes: while at < inner.len() {
        made.push(inner[at])?;
        at += name_byte_size(inner[at]);
    }
    Bytes::of(alloc, made.as_slice())
}

/// The name that is quoted so: borrowed where it has no backquote.
pub(crate) fn name_part<'a>(alloc: Global, text: &'a [u8]) -> Result<Part<'a>, OutOfMemory>
    requires { QuotedName text.now }
    ensures { IfOk result (λ part. quoted_name part ≡ text.now) }
{
    let inner = inside(text);
    if has_byte(inner, b'`') {
        return Ok(Part::owned(undouble(alloc, inner)?));
    }
    Ok(Part::of(inner))
}

/// The text that is written so: borrowed where nothing is escaped.
pub(crate) fn text_part<'a>(alloc: Global, text: &'a [u8]) -> Result<Part<'a>, OutOfMemory>
    requires { WrittenText text.now }
    ensures { IfOk result (λ part. text_literal part ≡ text.now) }
{
    let inner = inside(text);
    if has_byte(inner, b'\\') {
        return Ok(Part::owned(unescape(alloc, inner)?));
    }
    Ok(Part::of(inner))
}

/// The names, at least one.
pub(crate) fn name_parts<'a>(alloc: Global, text: &'a [u8]) -> Result<PartList<'a>, OutOfMemory>
    requires { Names text.now }
    ensures { IfOk result (λ parts. (names parts ≡ text.now) × (0 < length parts)) }
{
    let mut parts = PlainList::new(alloc);
    let mut at = 0;
    'names: loop {
        let Ok(size) = read_name(&text[at..]) else {
            unreachable!()
        };
        parts.push(name_part(alloc, &text[at..at + size])?)?;
        at += size;
        if at == text.len() {
            return Ok(parts);
        }
        at += 1;
    }
}

/// A schema, and what stands in it, by their quoted names.
pub(crate) fn path_parts<'a>(
    alloc: Global,
    schema: &'a [u8],
    name: &'a [u8],
) -> Result<Path<'a>, OutOfMemory>
    requires schema { QuotedName schema.now }
    requires name { QuotedName name.now }
    ensures { IfOk result (λ path. IsPath path schema.now name.now) }
{
    Ok(Path {
        schema: name_part(alloc, schema)?,
        name: name_part(alloc, name)?,
    })
}

/// A schema, and what stands in it, by their text literals.
pub(crate) fn path_texts<'a>(
    alloc: Global,
    schema: &'a [u8],
    name: &'a [u8],
) -> Result<Path<'a>, OutOfMemory>
    requires schema { WrittenText schema.now }
    requires name { WrittenText name.now }
    ensures { IfOk result (λ path. IsPathOfTexts path schema.now name.now) }
{
    Ok(Path {
        schema: text_part(alloc, schema)?,
        name: text_part(alloc, name)?,
    })
}

/// A key, and its table.
pub(crate) fn key_parts<'a>(
    alloc: Global,
    key: &'a [u8],
    schema: &'a [u8],
    table: &'a [u8],
) -> Result<KeyPath<'a>, OutOfMemory>
    requires key { QuotedName key.now }
    requires schema { QuotedName schema.now }
    requires table { QuotedName table.now }
    ensures { IfOk result (λ made. IsKeyPath made key.now schema.now table.now) }
{
    Ok(KeyPath {
        key: name_part(alloc, key)?,
        path: path_parts(alloc, schema, table)?,
    })
}

/// Columns, and their table.
pub(crate) fn source_parts<'a>(
    alloc: Global,
    columns: &'a [u8],
    schema: &'a [u8],
    table: &'a [u8],
) -> Result<Source<'a>, OutOfMemory>
    requires columns { Names columns.now }
    requires schema { QuotedName schema.now }
    requires table { QuotedName table.now }
    ensures { IfOk result (λ made. IsSource made columns.now schema.now table.now) }
{
    Ok(Source {
        columns: name_parts(alloc, columns)?,
        path: path_parts(alloc, schema, table)?,
    })
}

/// Columns, their table, and its key.
pub(crate) fn keyed_parts<'a>(
    alloc: Global,
    columns: &'a [u8],
    schema: &'a [u8],
    table: &'a [u8],
    key: &'a [u8],
) -> Result<KeyedSource<'a>, OutOfMemory>
    requires columns { Names columns.now }
    requires schema { QuotedName schema.now }
    requires table { QuotedName table.now }
    requires key { QuotedName key.now }
    ensures { IfOk result (λ made. IsKeyedSource made columns.now schema.now table.now key.now) }
{
    Ok(KeyedSource {
        source: source_parts(alloc, columns, schema, table)?,
        key: name_part(alloc, key)?,
    })
}

/// Columns, their table, and the columns of its key.
pub(crate) fn wide_parts<'a>(
    alloc: Global,
    columns: &'a [u8],
    schema: &'a [u8],
    table: &'a [u8],
    keys: &'a [u8],
) -> Result<WideSource<'a>, OutOfMemory>
    requires columns { Names columns.now }
    requires schema { QuotedName schema.now }
    requires table { QuotedName table.now }
    requires keys { Names keys.now }
    ensures { IfOk result (λ made. IsWideSource made columns.now schema.now table.now keys.now) }
{
    Ok(WideSource {
        source: source_parts(alloc, columns, schema, table)?,
        keys: name_parts(alloc, keys)?,
    })
}

/// The number of 64 bits that is written so.
pub(crate) fn count_value(text: &[u8]) -> u64
    requires { Within 0 (2 ^ 64) text.now }
    ensures text { decimal result ≡ text.now }
    ensures range { result < 2 ^ 64 }
{
    let Ok(number) = read_number(text, 0, 1 << 64) else {
        unreachable!()
    };
    number.value as u64
}

// A number below 2^127.
fn positive(value: u128) -> i128
    requires { value < 2 ^ 127 }
    ensures { result ≡ pos value }
{
    value as i128
}

// The negative of a number above 0 and at most 2^127.
fn negative(value: u128) -> i128
    requires some { 0 < value }
    requires most { value ≤ 2 ^ 127 }
    ensures { result ≡ negsuc (value - 1) }
{
    -positive(value - 1) - 1
}

/// The number of 128 bits that is written so.
pub(crate) fn bound_value(text: &[u8]) -> i128
    requires { BoundText text.now }
    ensures text { signed_decimal result ≡ text.now }
    ensures range { IsI128 result }
{
    if text[0] != b'-' {
        let Ok(number) = read_number(text, 0, 1 << 127) else {
            unreachable!()
        };
        return positive(number.value);
    }
    let Ok(number) = read_number(&text[1..], 1, (1 << 127) + 1) else {
        unreachable!()
    };
    negative(number.value)
}
