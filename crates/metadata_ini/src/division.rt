//! The name of a file, divided into its parts.
ghost use Rattle.std.specs.Prelude.{◌≡◌, ◌≢◌, ◌∷◌, ◌++◌, ◌<◌, ◌^◌, codes, MatchOption};
ghost use Rattle.folder_forms.specs.FileName.{file_number};
ghost use Rattle.metadata_ini.specs.Division.{BeginsOtherwise, Divides, IsNameEnding, IsNoNameEnding, IsObjectEnding, IsNoObjectEnding, IsBetweenNone, IsNameFront, IsUndivided, NumbersNone, is_spelling_byte};

use crate::numbers::read_file_number;
use crate::spelling::stands;
use folder_forms::FileKind;
use object_forms::Kind;

// The name of a file, in its parts: the two names as they are spelled.
#[derive(Clone, Copy)]
pub(crate) struct Division<'a> {
    pub(crate) kind: FileKind,
    pub(crate) schema: &'a [u8],
    pub(crate) name: &'a [u8],
    pub(crate) number: u32,
}

fn is_spelling_byte(byte: u8) -> bool
    ensures { result ≡ is_spelling_byte byte }
{
    stands(byte) || byte == b'@'
}

// What spells a name in front, and what comes after it.
fn front(text: &[u8]) -> (&[u8], &[u8])
    ensures { IsNameFront text.now result.0.now result.1.now }
{
    for at in 0..text.len() {
        if !is_spelling_byte(text[at]) {
            return text.split_at(at);
        }
    }
    text.split_at(text.len())
}

// What stands between a point and how the name of a file of rows ends.
fn between(text: &[u8]) -> Option<&[u8]>
    ensures { MatchOption result (IsBetweenNone text.now)
        (λ inner. text.now ≡ codes "." ++ inner.now ++ codes ".sql") }
{
    if text.len() < 5 {
        return None;
    }
    let (point, rest) = text.split_at(1);
    let (inner, end) = rest.split_at(rest.len() - 4);
    if point != b".".as_slice() {
        return None;
    }
    if end != b".sql".as_slice() {
        return None;
    }
    Some(inner)
}

// The number of a file of rows whose name ends so.
#[tactic(auto, using(crate::proofs::Parts::numbers_between))]
fn rows_ending(text: &[u8]) -> Option<u32>
    ensures { MatchOption result (NumbersNone text.now)
        (λ number. text.now ≡ codes "." ++ file_number number ++ codes ".sql") }
{
    read_file_number(between(text)?)
}

// The kind of an object other than a schema whose file's name ends so.
fn object_ending(text: &[u8]) -> Option<Kind>
    ensures { MatchOption result (IsNoObjectEnding text.now) (IsObjectEnding text.now) }
{
    if text == b"-schema.sql".as_slice() {
        return Some(Kind::Table);
    }
    if text == b"-schema-procedure.sql".as_slice() {
        return Some(Kind::Procedure);
    }
    if text == b"-schema-function.sql".as_slice() {
        return Some(Kind::Function);
    }
    if text == b"-schema-view.sql".as_slice() {
        return Some(Kind::View);
    }
    if text == b"-schema-trigger.sql".as_slice() {
        return Some(Kind::Trigger);
    }
    if text == b"-schema-event.sql".as_slice() {
        return Some(Kind::Event);
    }
    None
}

// The kind and the number of a file whose name ends so, where that isn't a schema's.
#[tactic(auto, using(crate::proofs::Parts::no_ending_of, crate::proofs::Parts::object_ended, crate::proofs::Parts::rows_ended))]
fn read_ending(text: &[u8]) -> Option<(FileKind, u32)>
    ensures { MatchOption result (IsNoNameEnding text.now) (λ r. IsNameEnding text.now r.0 r.1) }
{
    if let Some(kind) = object_ending(text) {
        return Some((FileKind::Object(kind), 0));
    }
    let number = rows_ending(text)?;
    Some((FileKind::Rows, number))
}

// What comes after a point.
fn after_point(text: &[u8]) -> Option<&[u8]>
    ensures { MatchOption result (BeginsOtherwise text.now) (λ after. text.now ≡ 46 ∷ after.now) }
{
    match text {
        [b'.', after @ ..] => Some(after),
        _ => None,
    }
}

/// The parts of a file's name.
#[tactic(auto, using(crate::proofs::Parts::no_division, crate::proofs::Parts::no_ending, crate::proofs::Parts::schema_division, crate::proofs::Parts::named_division))]
pub(crate) fn divide(text: &[u8]) -> Option<Division<'_>>
    ensures { MatchOption result (IsUndivided text.now)
        (λ d. Divides text.now d.kind d.schema.now d.name.now d.number) }
{
    let (schema, rest) = front(text);
    if rest == b"-schema-create.sql".as_slice() {
        return Some(Division {
            kind: FileKind::Object(Kind::Schema),
            schema,
            name: schema,
            number: 0,
        });
    }
    let Some(after) = after_point(rest) else {
        return None;
    };
    let (name, end) = front(after);
    let Some((kind, number)) = read_ending(end) else {
        return None;
    };
    Some(Division {
        kind,
        schema,
        name,
        number,
    })
}
