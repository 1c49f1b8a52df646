//! Which object a text makes: its kind and its name.
ghost use Rattle.std.specs.Prelude.{◌≡◌, option_map, IfSome};
ghost use Rattle.object_forms.specs.Head.{after_exists, after_on, dotted_name, head, kind_in, kind_of, making, name_in, name_of, path_in, trigger_table};
ghost use Rattle.sql_tokens.specs.Left.{IsLeft};
ghost use Rattle.object_texts.specs.Reading.{table_path, found_by, path_after_exists, named_path, path_after_on, making_of, path_of};
ghost use Rattle.sql_tokens.specs.Reading.{tokens_of, token_of};
ghost use Rattle.object_forms.specs.Token.{tokens};

use object_forms::Kind;
use sql_tokens::{Token, after_front_word, after_mark, after_word, next_token, past_gaps};

/// What a text makes: the kind, the schema where one is named, and the name, both as they are
/// spelled, without backquotes around them.
#[derive(Clone, Copy, Debug)]
pub struct Head<'a> {
    pub kind: Kind,
    pub schema: Option<&'a [u8]>,
    pub name: &'a [u8],
}

// A name, and the schema that was named with it.
#[derive(Clone, Copy)]
pub(crate) struct Path<'a> {
    pub(crate) schema: Option<&'a [u8]>,
    pub(crate) name: &'a [u8],
}

// The kind that a word of a head says.
fn kind_of(token: Token<'_>) -> Option<Kind>
    ensures { result ≡ kind_of (token_of token.entry) }
{
    if token.is_word(b"database") {
        Some(Kind::Schema)
    } else if token.is_word(b"table") {
        Some(Kind::Table)
    } else if token.is_word(b"procedure") {
        Some(Kind::Procedure)
    } else if token.is_word(b"function") {
        Some(Kind::Function)
    } else if token.is_word(b"view") {
        Some(Kind::View)
    } else if token.is_word(b"trigger") {
        Some(Kind::Trigger)
    } else if token.is_word(b"event") {
        Some(Kind::Event)
    } else {
        None
    }
}

// The first word that says a kind, and what stands after it.
#[tactic(auto, using(sql_tokens::proofs::Cuts::left))]
pub(crate) fn kind_in(text: &[u8]) -> Option<(Kind, &[u8])>
    ensures kind { found_by (λ kind. kind) result ≡ kind_in (tokens text.now) }
    ensures left { IfSome result (λ kind. IsLeft text.now kind.1.now) }
{
    let mut rest = text;
    'tokens: while let Some((token, after)) = next_token(rest) {
        if let Some(kind) = kind_of(token) {
            return Some((kind, after));
        }
        rest = after;
    }
    None
}

// What stands after the words IF NOT EXISTS.
fn after_exists(text: &[u8]) -> Option<&[u8]>
    ensures { tokens_of result ≡ after_exists (tokens text.now) }
{
    after_word(b"exists", after_word(b"not", after_word(b"if", text)?)?)
}

// The name between backquotes, or the word.
fn name_of(token: Token<'_>) -> Option<&[u8]>
    ensures { option_map (λ name. name.now) result ≡ name_of (token_of token.entry) }
{
    match token {
        Token::Word(bytes) | Token::QuotedName(bytes) => Some(bytes),
        _ => None,
    }
}

// A name past white space and comments, and what stands after it.
fn name_in(text: &[u8]) -> Option<(&[u8], &[u8])>
    ensures { found_by (λ name. name.now) result ≡ name_in (tokens text.now) }
{
    let (token, rest) = next_token(past_gaps(text))?;
    Some((name_of(token)?, rest))
}

// A dot and a name.
fn dotted_name(text: &[u8]) -> Option<(&[u8], &[u8])>
    ensures { found_by (λ name. name.now) result ≡ dotted_name (tokens text.now) }
{
    name_in(after_mark(b'.', past_gaps(text))?)
}

// A name, or a schema, a dot and a name.
fn path_in(text: &[u8]) -> Option<(Path<'_>, &[u8])>
    ensures { found_by path_of result ≡ path_in (tokens text.now) }
{
    let (first, rest) = name_in(text)?;
    match dotted_name(rest) {
        None => Some((
            Path {
                schema: None,
                name: first,
            },
            rest,
        )),
        Some((second, rest)) => Some((
            Path {
                schema: Some(first),
                name: second,
            },
            rest,
        )),
    }
}

// The path after the words IF NOT EXISTS.
fn path_after_exists(text: &[u8]) -> Option<(Path<'_>, &[u8])>
    ensures { found_by path_of result ≡ path_after_exists (tokens text.now) }
{
    path_in(after_exists(text)?)
}

// The path after a kind.
fn named_path(text: &[u8]) -> Option<(Path<'_>, &[u8])>
    ensures { found_by path_of result ≡ named_path (tokens text.now) }
{
    match path_after_exists(text) {
        Some(path) => Some(path),
        None => path_in(text),
    }
}

// The head of a text, and what stands after it.
pub(crate) fn head_in(text: &[u8]) -> Option<(Head<'_>, &[u8])>
    ensures { found_by making_of result ≡ head text.now }
{
    let (kind, rest) = kind_in(after_front_word(b"create", text)?)?;
    let (path, rest) = named_path(rest)?;
    Some((
        Head {
            kind,
            schema: path.schema,
            name: path.name,
        },
        rest,
    ))
}

/// What a text makes; `None` where it has no head. A head is the word CREATE, then any tokens up to
/// the first word that says a kind (DATABASE, TABLE, PROCEDURE, FUNCTION, VIEW, TRIGGER or EVENT),
/// that word, and a name, which may stand after IF NOT EXISTS and after the name of a schema and a
/// dot. Takes no memory. (MySQL 8.0 Reference Manual, 15.1.12, 15.1.13, 15.1.17, 15.1.20, 15.1.22,
/// 15.1.23.)
pub fn head_of(text: &[u8]) -> Option<Head<'_>>
    ensures { option_map making_of result ≡ making text.now }
{
    let (head, _) = head_in(text)?;
    Some(head)
}

// What stands after the first word ON.
fn after_on(text: &[u8]) -> Option<&[u8]>
    ensures { tokens_of result ≡ after_on (tokens text.now) }
{
    let mut rest = text;
    'tokens: while let Some((token, after)) = next_token(rest) {
        if token.is_word(b"on") {
            return Some(after);
        }
        rest = after;
    }
    None
}

// The path after the first word ON.
fn path_after_on(text: &[u8]) -> Option<Path<'_>>
    ensures { option_map path_of result ≡ path_after_on (tokens text.now) }
{
    let (path, _) = path_in(after_on(text)?)?;
    Some(path)
}

/// The table of a trigger's text, after the schema where one is named: the one named after the
/// first word ON after the head. `None` where the text makes no trigger or no name stands there.
/// Takes no memory. (MySQL 8.0 Reference Manual, 15.1.22.)
pub fn trigger_table(text: &[u8]) -> Option<(Option<&[u8]>, &[u8])>
    ensures { option_map table_path result ≡ trigger_table text.now }
{
    let (head, rest) = head_in(text)?;
    if head.kind != Kind::Trigger {
        return None;
    }
    let table = path_after_on(rest)?;
    Some((table.schema, table.name))
}
