//! The item PRIMARY KEY, the column that is the key, and the columns that it names.
ghost use Rattle.std.specs.Prelude.{◌≡◌, ◌<◌, ◌^◌, length, position, option_and_then, IfOk, IfSome};
ghost use Rattle.std.specs.List.{list_all};
ghost use Rattle.object_texts.specs.Reading.{parts_in, spelled_name};
ghost use Rattle.plain_data.specs.Byte.{is_digit};
ghost use Rattle.object_forms.specs.Shape.{after_length, after_primary, bare_name, column_index, is_ended, is_integer, is_key, is_number_token, key_columns_of, key_of, key_parts, only_name, part_index, part_indices, part_name, parts, past_direction, primary};
ghost use Rattle.sql_tokens.specs.Reading.{tokens_of, token_of};
ghost use Rattle.object_forms.specs.Token.{past_gaps, tokens};

use crate::column::undoubled;
use crate::items::{enclosed_in, next_part};
use object_forms::{Column, IndexList};
use plain_data::OutOfMemory;
use sql_tokens::{
    Token, after_front_word, after_mark, after_word, next_token, past_gaps, past_spaces,
};
use std::alloc::Global;

// What stands after the words PRIMARY KEY.
fn after_primary(item: &[u8]) -> Option<&[u8]>
    ensures { tokens_of result ≡ after_primary (tokens item.now) }
{
    after_word(b"key", after_front_word(b"primary", past_spaces(item))?)
}

// What stands in the parenthesis of the item PRIMARY KEY (..).
fn key_parts(item: &[u8]) -> Option<&[u8]>
    ensures { parts_in result ≡ key_parts (tokens item.now) }
{
    let (inner, _) = enclosed_in(after_primary(item)?)?;
    Some(inner)
}

// The same of the first PRIMARY KEY item.
fn primary(items: &[u8]) -> Option<&[u8]>
    ensures { parts_in result ≡ primary (parts 0 (tokens items.now)) }
{
    let mut rest = items;
    'items: loop {
        let (item, left) = next_part(rest);
        if let Some(inner) = key_parts(item) {
            return Some(inner);
        }
        let Some(after) = left else {
            return None;
        };
        rest = after;
    }
}

pub(crate) fn is_digit(byte: u8) -> bool
    ensures { result ≡ is_digit byte }
{
    byte.is_ascii_digit()
}

fn are_digits(bytes: &[u8]) -> bool
    ensures { result ≡ list_all is_digit bytes.now }
{
    for byte in bytes {
        if !is_digit(*byte) {
            return false;
        }
    }
    true
}

fn is_number(token: Token<'_>) -> bool
    ensures { result ≡ is_number_token (token_of token.entry) }
{
    match token {
        Token::Word(bytes) => are_digits(bytes),
        _ => false,
    }
}

// What stands after a length in parentheses.
fn after_length(text: &[u8]) -> Option<&[u8]>
    ensures { tokens_of result ≡ after_length (tokens text.now) }
{
    let inner = after_mark(b'(', past_gaps(text))?;
    let (token, rest) = next_token(past_gaps(inner))?;
    if !is_number(token) {
        return None;
    }
    after_mark(b')', past_gaps(rest))
}

// The text without a direction in front.
fn past_direction(text: &[u8]) -> &[u8]
    ensures { tokens result.now ≡ past_direction (tokens text.now) }
{
    if let Some(rest) = after_word(b"asc", text) {
        return rest;
    }
    after_word(b"desc", text).unwrap_or(text)
}

// Whether there is nothing but white space and comments.
fn is_ended(text: &[u8]) -> bool
    ensures { result ≡ is_ended (past_gaps (tokens text.now)) }
{
    next_token(past_gaps(text)).is_none()
}

// The name of a part of a key, as it is spelled between backquotes.
fn part_name(part: &[u8]) -> Option<&[u8]>
    ensures { spelled_name result ≡ part_name (tokens part.now) }
{
    let (Token::QuotedName(name), rest) = next_token(past_gaps(part))? else {
        return None;
    };
    let rest = after_length(rest).unwrap_or(rest);
    is_ended(past_direction(rest)).then_some(name)
}

// The name of the only part.
#[tactic(auto, using(crate::proofs::Parts::part_by_part))]
fn only_name(inner: &[u8]) -> Option<&[u8]>
    ensures { spelled_name result ≡ only_name (parts 0 (tokens inner.now)) }
{
    let (part, None) = next_part(inner) else {
        return None;
    };
    part_name(part)
}

// The name of the only part of PRIMARY KEY.
fn key_name(items: &[u8]) -> Option<&[u8]>
    ensures { spelled_name result ≡
        option_and_then only_name (primary (parts 0 (tokens items.now))) }
{
    only_name(primary(items)?)
}

fn is_integer(data_type: &[u8]) -> bool
    ensures { result ≡ is_integer data_type.now }
{
    data_type == b"tinyint".as_slice()
        || data_type == b"smallint".as_slice()
        || data_type == b"mediumint".as_slice()
        || data_type == b"int".as_slice()
        || data_type == b"bigint".as_slice()
}

// Whether a column has that name, and is plain and an integer.
fn is_key(name: &[u8], column: &Column) -> bool
    ensures { result ≡ is_key name.now column.now }
{
    column.name.as_slice() == name && !column.generated && is_integer(column.data_type.as_slice())
}

// The first column that is the key, where that name is the key's.
fn key_index(name: &[u8], columns: &[Column]) -> Option<usize>
    ensures place { result ≡ position (is_key name.now) columns.now }
    ensures within { IfSome result (λ place. place < length columns.now) }
{
    columns.iter().position(|column| is_key(name, column))
}

fn key_place(name: &[u8], columns: &[Column]) -> Option<u32>
    requires { length columns.now < 2 ^ 32 }
    ensures { result ≡ position (is_key name.now) columns.now }
{
    let place = key_index(name, columns)?;
    Some(place as u32)
}

// Which column is the key.
pub(crate) fn key_of(
    alloc: Global,
    items: &[u8],
    columns: &[Column],
) -> Result<Option<u32>, OutOfMemory>
    requires { length columns.now < 2 ^ 32 }
    ensures { IfOk result (λ key. key ≡ key_of (parts 0 (tokens items.now)) columns.now) }
{
    let Some(name) = key_name(items) else {
        return Ok(None);
    };
    let name = undoubled(alloc, name)?;
    Ok(key_place(name.as_slice(), columns))
}

// The name of a part that is nothing else, as it is spelled between backquotes.
fn bare_name(part: &[u8]) -> Option<&[u8]>
    ensures { spelled_name result ≡ bare_name (tokens part.now) }
{
    let (Token::QuotedName(name), rest) = next_token(past_gaps(part))? else {
        return None;
    };
    is_ended(rest).then_some(name)
}

// The first column with that name.
fn column_index(name: &[u8], columns: &[Column]) -> Option<usize>
    ensures place { result ≡ column_index columns.now name.now }
    ensures within { IfSome result (λ place. place < length columns.now) }
{
    columns
        .iter()
        .position(|column| column.name.as_slice() == name)
}

fn column_place(name: &[u8], columns: &[Column]) -> Option<u32>
    requires { length columns.now < 2 ^ 32 }
    ensures { result ≡ column_index columns.now name.now }
{
    let place = column_index(name, columns)?;
    Some(place as u32)
}

// The index of the column that a part names.
fn part_index(alloc: Global, part: &[u8], columns: &[Column]) -> Result<Option<u32>, OutOfMemory>
    requires { length columns.now < 2 ^ 32 }
    ensures { IfOk result (λ index. index ≡ part_index columns.now (tokens part.now)) }
{
    let Some(name) = bare_name(part) else {
        return Ok(None);
    };
    let name = undoubled(alloc, name)?;
    Ok(column_place(name.as_slice(), columns))
}

// The indices of the columns that the parts name, where each names one.
fn part_indices(
    alloc: Global,
    inner: &[u8],
    columns: &[Column],
) -> Result<Option<IndexList>, OutOfMemory>
    requires { length columns.now < 2 ^ 32 }
    ensures { IfOk result (λ made. made ≡ part_indices columns.now (parts 0 (tokens inner.now))) }
{
    let mut made = IndexList::new(alloc);
    let mut rest = inner;
    'parts: loop {
        let (part, left) = next_part(rest);
        let Some(index) = part_index(alloc, part, columns)? else {
            return Ok(None);
        };
        made.push(index)?;
        let Some(after) = left else {
            return Ok(Some(made));
        };
        rest = after;
    }
}

// Which columns are the key.
pub(crate) fn key_columns_of(
    alloc: Global,
    items: &[u8],
    columns: &[Column],
) -> Result<Option<IndexList>, OutOfMemory>
    requires { length columns.now < 2 ^ 32 }
    ensures { IfOk result (λ key. key ≡ key_columns_of (parts 0 (tokens items.now)) columns.now) }
{
    let Some(inner) = primary(items) else {
        return Ok(None);
    };
    part_indices(alloc, inner, columns)
}
