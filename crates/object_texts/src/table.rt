//! A table's text: its items, its engine and what stands after its parenthesis.
ghost use Rattle.std.specs.Prelude.{◌≡◌, ◌≤◌, IfSome, length, option_map, option_and_then};
ghost use Rattle.std.specs.Str.{is_utf8};
ghost use Rattle.sql_tokens.specs.Reading.{tokens_of};
ghost use Rattle.object_forms.specs.Head.{head};
ghost use Rattle.object_forms.specs.Shape.{columns_are, engine_at, engine_in, items_after, option_at, shape, name_value, word_at};
ghost use Rattle.object_texts.specs.Reading.{enclosed_of, item_columns, columns_in, names_are, shape_of_table};
ghost use Rattle.object_forms.specs.Token.{tokens};

use crate::column::column_of;
use crate::head::head_in;
use crate::items::{enclosed_in, next_part};
use object_forms::Kind;
use sql_tokens::{Token, after_front_word, after_mark, next_token};

// What stands in a table's parenthesis, its engine, and what stands after the parenthesis.
#[derive(Clone, Copy)]
pub(crate) struct Table<'a> {
    pub(crate) items: &'a [u8],
    pub(crate) engine: &'a [u8],
    pub(crate) after: &'a [u8],
}

// What stands after `WORD=` at the front.
pub(crate) fn option_at<'a>(lower: &[u8], text: &'a [u8]) -> Option<&'a [u8]>
    ensures { tokens_of result ≡ option_at lower.now (tokens text.now) }
{
    after_mark(b'=', after_front_word(lower, text)?)
}

// The word at the front.
fn word_at(text: &[u8]) -> Option<&[u8]>
    ensures { option_map (λ word. word.now) result ≡ word_at (tokens text.now) }
{
    let (Token::Word(word), _) = next_token(text)? else {
        return None;
    };
    Some(word)
}

// The word after `ENGINE=` at the front.
fn engine_at(text: &[u8]) -> Option<&[u8]>
    ensures { option_map (λ word. word.now) result ≡ engine_at (tokens text.now) }
{
    word_at(option_at(b"engine", text)?)
}

// The word after the first `ENGINE=` with one.
fn engine_in(text: &[u8]) -> Option<&[u8]>
    ensures { option_map (λ word. word.now) result ≡ engine_in (tokens text.now) }
{
    let mut rest = text;
    'tokens: while let Some((_, after)) = next_token(rest) {
        if let Some(engine) = engine_at(rest) {
            return Some(engine);
        }
        rest = after;
    }
    None
}

// Whether a name's text is UTF-8 once each doubled backquote is one.
#[tactic(auto, using(crate::proofs::Utf8::names))]
fn is_text(name: &[u8]) -> bool
    ensures { result ≡ is_utf8 (name_value name.now) }
{
    match std::str::from_utf8(name) {
        Ok(_) => true,
        Err(_) => false,
    }
}

// Whether an item is no column, or one with a name of UTF-8.
fn is_named(item: &[u8]) -> bool
    ensures { result ≡ names_are (item_columns item.now) }
{
    match column_of(item) {
        Some(column) => is_text(column.name),
        None => true,
    }
}

// Whether the names of all columns are UTF-8.
#[tactic(auto, using(crate::proofs::Columns::columns))]
fn are_named(items: &[u8]) -> bool
    ensures { result ≡ names_are (columns_in items.now) }
{
    let mut rest = items;
    'items: loop {
        let (item, left) = next_part(rest);
        if !is_named(item) {
            return false;
        }
        let Some(after) = left else {
            return true;
        };
        rest = after;
    }
}

pub(crate) fn column_count_of(item: &[u8]) -> usize
    ensures { result ≡ length (item_columns item.now) }
{
    match column_of(item) {
        Some(_) => 1,
        None => 0,
    }
}

// How many columns there are.
#[tactic(auto, using(crate::proofs::Columns::columns))]
fn column_count(items: &[u8]) -> usize
    ensures { result ≡ length (columns_in items.now) }
{
    let mut rest = items;
    let mut count = 0;
    'items: loop {
        let (item, left) = next_part(rest);
        count += column_count_of(item);
        let Some(after) = left else {
            return count;
        };
        rest = after;
    }
}

// Whether there are from 1 to 65,535 columns, all with names of UTF-8.
fn columns_are(items: &[u8]) -> bool
    ensures { result ≡ columns_are (columns_in items.now) }
{
    let count = column_count(items);
    1 <= count && count <= 65535 && are_named(items)
}

// What stands in a table's parenthesis, and what stands after that.
fn items_in(text: &[u8]) -> Option<(&[u8], &[u8])>
    ensures { enclosed_of result ≡ option_and_then items_after (head text.now) }
{
    let (head, rest) = head_in(text)?;
    if head.kind != Kind::Table {
        return None;
    }
    enclosed_in(rest)
}

// The table that a text with a shape makes.
pub(crate) fn table_in(text: &[u8]) -> Option<Table<'_>>
    ensures shape { option_map shape_of_table result ≡ shape text.now }
    ensures few { IfSome result (λ table. length (columns_in table.items.now) ≤ 65535) }
{
    let (items, after) = items_in(text)?;
    if !columns_are(items) {
        return None;
    }
    let engine = engine_in(after)?;
    Some(Table {
        items,
        engine,
        after,
    })
}
