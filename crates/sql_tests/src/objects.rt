//! Texts as SHOW CREATE gives them: their heads, and a table's shape, key and counter.
use crate::words::{bytes_of, plain, push_bytes, words_of};
use object_forms::{Column, Kind, Shape};
use object_texts::{
    check_head, counter_of, head_of, key_columns, name_span, shape_of, trigger_table,
};
use plain_data::OutOfMemory;
use std::alloc::Global;

/// What comes of a call on an object's text, in words: `call` names it, and `rest` is the text in
/// percent-encoding. A call that isn't there is answered by `no call`. It is refused only for want of
/// memory.
pub fn object_case(alloc: Global, call: &str, rest: &str) -> Result<String, OutOfMemory> {
    let text = bytes_of(alloc, rest)?;
    match call {
        "head" => head(alloc, &text),
        "trigger" => trigger(alloc, &text),
        "check" => checked(alloc, &text),
        "name" => name(alloc, &text),
        "shape" => shape(alloc, &text),
        "key" => key(alloc, &text),
        "counter" => counter(alloc, &text),
        _ => plain(alloc, "no call"),
    }
}

fn kind_word(kind: Kind) -> &'static str {
    match kind {
        Kind::Schema => "schema",
        Kind::Table => "table",
        Kind::Procedure => "procedure",
        Kind::Function => "function",
        Kind::View => "view",
        Kind::Trigger => "trigger",
        Kind::Event => "event",
    }
}

// A kind and a name, and the schema where one is named.
fn path_words(
    alloc: Global,
    kind: &str,
    schema: Option<&[u8]>,
    name: &[u8],
) -> Result<String, OutOfMemory> {
    let mut words = plain(alloc, kind)?;
    words.push(' ')?;
    push_bytes(&mut words, name)?;
    if let Some(schema) = schema {
        words.push_str(" of schema ")?;
        push_bytes(&mut words, schema)?;
    }
    Ok(words)
}

fn head(alloc: Global, text: &[u8]) -> Result<String, OutOfMemory> {
    match head_of(text) {
        Some(head) => path_words(alloc, kind_word(head.kind), head.schema, head.name),
        None => plain(alloc, "no head"),
    }
}

fn trigger(alloc: Global, text: &[u8]) -> Result<String, OutOfMemory> {
    match trigger_table(text) {
        Some((schema, name)) => path_words(alloc, "table", schema, name),
        None => plain(alloc, "no table"),
    }
}

fn checked(alloc: Global, text: &[u8]) -> Result<String, OutOfMemory> {
    match check_head(text) {
        Ok(()) => plain(alloc, "a head"),
        Err(place) => Ok(format!(in alloc; "leaves at {place}")?),
    }
}

// The name as it is spelled, and how many bytes stand before it.
fn name(alloc: Global, text: &[u8]) -> Result<String, OutOfMemory> {
    let Some(span) = name_span(text) else {
        return plain(alloc, "no name");
    };
    let (_, rest) = text.split_at(span.before);
    let name = words_of(alloc, rest.split_at(span.size).0)?;
    Ok(format!(in alloc; "{name} after {}", span.before)?)
}

fn push_column(words: &mut String, column: &Column) -> Result<(), OutOfMemory> {
    words.push_str(column.name.as_str())?;
    words.push(' ')?;
    push_bytes(words, column.data_type.as_slice())?;
    words.push_str(if column.unsigned { " unsigned" } else { "" })?;
    words.push_str(if column.generated {
        " generated, "
    } else {
        ", "
    })?;
    Ok(())
}

// The columns, from a copy of their list.
fn columns_words(alloc: Global, shape: &Shape) -> Result<String, OutOfMemory> {
    let copy = shape.columns.copy()?;
    let mut words = String::new(alloc);
    for column in copy.as_slice() {
        push_column(&mut words, column)?;
    }
    Ok(words)
}

fn shape_words(alloc: Global, shape: &Shape) -> Result<String, OutOfMemory> {
    let columns = columns_words(alloc, shape)?;
    let engine = words_of(alloc, shape.engine.as_slice())?;
    match shape.key {
        Some(key) => Ok(format!(in alloc; "{columns}key {key}, engine {engine}")?),
        None => Ok(format!(in alloc; "{columns}no key, engine {engine}")?),
    }
}

fn shape(alloc: Global, text: &[u8]) -> Result<String, OutOfMemory> {
    match shape_of(alloc, text)? {
        Some(shape) => shape_words(alloc, &shape),
        None => plain(alloc, "no shape"),
    }
}

// The indices of the columns.
fn key(alloc: Global, text: &[u8]) -> Result<String, OutOfMemory> {
    let Some(indices) = key_columns(alloc, text)? else {
        return plain(alloc, "no key");
    };
    let mut words = plain(alloc, "columns")?;
    for index in indices.as_slice() {
        write!(words, " {index}")?;
    }
    Ok(words)
}

fn counter(alloc: Global, text: &[u8]) -> Result<String, OutOfMemory> {
    match counter_of(text) {
        Some(counter) => {
            Ok(format!(in alloc; "column {}, next {}", counter.column, counter.next)?)
        }
        None => plain(alloc, "no counter"),
    }
}
