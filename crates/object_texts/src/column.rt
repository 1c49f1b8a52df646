//! The item of a column: its name, its type and what is said after it.
ghost use Rattle.std.specs.Prelude.{◌≡◌, ◌++◌, true, map, option_map, IfOk};
ghost use Rattle.std.specs.List.{take_while};
ghost use Rattle.std.specs.Str.{is_utf8};
ghost use Rattle.std.specs.Char.{to_ascii_lowercase};
ghost use Rattle.sql_tokens.specs.Reading.{tokens_of};
ghost use Rattle.object_forms.specs.Shape.{after_generated, column_of, has_generated, has_word, is_letter, type_at, type_named, name_value};
ghost use Rattle.object_texts.specs.Reading.{item_columns, SomeIf, IsText, IsColumn, AreColumns, doubled_step, names_are, item_of, type_of};
ghost use Rattle.object_forms.specs.Token.{tokens};

use crate::items::next_part;
use object_forms::{Column, ColumnList};
use plain_data::{Bytes, Name, OutOfMemory};
use sql_tokens::{Token, after_front_word, after_word, next_token, past_spaces};
use std::alloc::Global;

// A column as its item spells it: the name without backquotes around it, the letters of its type
// word, and what stands after that word.
#[derive(Clone, Copy)]
pub(crate) struct Declared<'a> {
    pub(crate) name: &'a [u8],
    pub(crate) type_word: &'a [u8],
    pub(crate) rest: &'a [u8],
}

fn is_letter(byte: u8) -> bool
    ensures { result ≡ is_letter byte }
{
    byte.is_ascii_alphabetic()
}

// The letters that a word begins with.
#[tactic(auto, using(sql_tokens::proofs::Quotes::prefixes))]
fn letters(word: &[u8]) -> &[u8]
    ensures { result.now ≡ take_while is_letter word.now }
{
    for i in 0..word.len() {
        if !is_letter(word[i]) {
            return word.split_at(i).0;
        }
    }
    word
}

// The letters of the type word at the front, and what stands after that word.
fn type_at(text: &[u8]) -> (&[u8], &[u8])
    ensures { type_of result.0.now result.1.now ≡ type_at (tokens text.now) }
{
    match next_token(text) {
        Some((Token::Word(word), rest)) => (letters(word), rest),
        _ => (b"", text),
    }
}

// The column of an item whose first byte past white space is a backquote.
pub(crate) fn column_of(item: &[u8]) -> Option<Declared<'_>>
    ensures { option_map item_of result ≡ column_of (tokens item.now) }
{
    let (Token::QuotedName(name), after) = next_token(past_spaces(item))? else {
        return None;
    };
    let (type_word, rest) = type_at(past_spaces(after));
    Some(Declared {
        name,
        type_word,
        rest,
    })
}

// Whether the word, which is given in lower case, stands somewhere.
pub(crate) fn has_word(lower: &[u8], text: &[u8]) -> bool
    ensures { result ≡ has_word lower.now (tokens text.now) }
{
    let mut rest = text;
    'tokens: while let Some((token, after)) = next_token(rest) {
        if token.is_word(lower) {
            return true;
        }
        rest = after;
    }
    false
}

// What stands after the words GENERATED ALWAYS AS at the front.
fn after_generated(text: &[u8]) -> Option<&[u8]>
    ensures { tokens_of result ≡ after_generated (tokens text.now) }
{
    after_word(
        b"as",
        after_word(b"always", after_front_word(b"generated", text)?)?,
    )
}

// Whether the words GENERATED ALWAYS AS stand somewhere.
pub(crate) fn has_generated(text: &[u8]) -> bool
    ensures { result ≡ has_generated (tokens text.now) }
{
    let mut rest = text;
    'tokens: while let Some((_, after)) = next_token(rest) {
        if after_generated(rest).is_some() {
            return true;
        }
        rest = after;
    }
    false
}

// How many bytes stand for the first one of a name.
fn doubled_step(name: &[u8]) -> usize
    ensures { result ≡ doubled_step name.now }
{
    if name.starts_with(b"``") { 2 } else { 1 }
}

// A name with each doubled backquote as one.
#[tactic(auto, using(crate::proofs::Names::undoubled_step))]
pub(crate) fn undoubled(alloc: Global, name: &[u8]) -> Result<Vec<u8>, OutOfMemory>
    ensures { IfOk result (λ made. made.items ≡ name_value name.now) }
{
    let mut made = Vec::new(alloc);
    let mut at = 0;
    'name: while at < name.len() {
        made.push(name[at])?;
        at += doubled_step(name.split_at(at).1);
    }
    Ok(made)
}

// The type in lower case, where `integer` is `int`.
pub(crate) fn type_named(alloc: Global, letters: &[u8]) -> Result<Bytes, OutOfMemory>
    ensures { IfOk result (λ made. made ≡ type_named (map to_ascii_lowercase letters.now)) }
{
    let mut lower = Vec::new(alloc);
    for byte in letters {
        lower.push(byte.to_ascii_lowercase())?;
    }
    if lower.as_slice() == b"integer".as_slice() {
        return Bytes::of(alloc, b"int");
    }
    Bytes::of(alloc, lower.as_slice())
}

// The text that the bytes spell, where they are UTF-8.
#[tactic(auto, using(crate::proofs::Utf8::texts))]
fn text_of(bytes: &[u8]) -> Option<&str>
    ensures { SomeIf (is_utf8 bytes.now) (λ text. text.now ≡ bytes.now) result }
{
    match std::str::from_utf8(bytes) {
        Ok(text) => Some(text),
        Err(_) => None,
    }
}

// The name with each doubled backquote as one, where that is UTF-8.
fn name_of(alloc: Global, spelled: &[u8]) -> Result<Option<Name>, OutOfMemory>
    ensures { IfOk result (IsText (name_value spelled.now)) }
{
    let bytes = undoubled(alloc, spelled)?;
    match text_of(bytes.as_slice()) {
        Some(text) => Ok(Some(Name::of(alloc, text)?)),
        None => Ok(None),
    }
}

// The column, where its name is UTF-8.
fn column_made(alloc: Global, declared: &Declared<'_>) -> Result<Option<Column>, OutOfMemory>
    ensures { IfOk result (IsColumn (item_of declared.now)) }
{
    let Some(name) = name_of(alloc, declared.name)? else {
        return Ok(None);
    };
    let data_type = type_named(alloc, declared.type_word)?;
    Ok(Some(Column {
        name,
        data_type,
        unsigned: has_word(b"unsigned", declared.rest),
        generated: has_generated(declared.rest),
    }))
}

// Puts the column of an item at the end, where the item has one. False where its name isn't UTF-8.
fn add_column(alloc: Global, columns: &mut ColumnList, item: &[u8]) -> Result<bool, OutOfMemory>
    ensures names { IfOk result (λ named. named ≡ names_are (item_columns item.now)) }
    ensures columns { IfOk result (λ named.
        named ≡ true → columns.new ≡ columns.old ++ item_columns item.now) }
{
    let Some(declared) = column_of(item) else {
        return Ok(true);
    };
    let Some(column) = column_made(alloc, &declared)? else {
        return Ok(false);
    };
    columns.push(column)?;
    Ok(true)
}

// The columns of the items, where all their names are UTF-8.
#[tactic(auto, using(crate::proofs::Columns::columns))]
pub(crate) fn columns_in(alloc: Global, items: &[u8]) -> Result<Option<ColumnList>, OutOfMemory>
    ensures { IfOk result (AreColumns items.now) }
{
    let mut made = ColumnList::new(alloc);
    let mut rest = items;
    'items: loop {
        let (item, left) = next_part(rest);
        if !add_column(alloc, &mut made, item)? {
            return Ok(None);
        }
        let Some(after) = left else {
            return Ok(Some(made));
        };
        rest = after;
    }
}
