//! Texts that are cut at a byte.
ghost use Rattle.std.specs.Prelude.{◌≡◌, ◌≢◌, ◌∷◌, ◌++◌, MatchOption};
ghost use Rattle.metadata_ini.specs.Cut.{HasFields, HasNoFields, IsCut, Lacks, texts_of};

use memchr::memchr;

/// What stands before the first such byte, and what after it.
pub(crate) fn cut(byte: u8, text: &[u8]) -> Option<(&[u8], &[u8])>
    ensures { MatchOption result (Lacks byte text.now)
        (λ r. IsCut byte text.now r.0.now r.1.now) }
{
    match memchr(byte, text) {
        Some(at) => {
            let (front, rest) = text.split_at(at);
            let (_, after) = rest.split_at(1);
            Some((front, after))
        }
        None => None,
    }
}

// The fields of a line of a file.
#[derive(Clone, Copy)]
pub(crate) struct Fields<'a> {
    pub(crate) kind: &'a [u8],
    pub(crate) rows: &'a [u8],
    pub(crate) bytes: &'a [u8],
    pub(crate) digest: &'a [u8],
    pub(crate) name: &'a [u8],
}

/// The fields of a line of a file.
pub(crate) fn fields_of(text: &[u8]) -> Option<Fields<'_>>
    ensures { MatchOption result (HasNoFields text.now)
        (λ fields. HasFields text.now (texts_of fields)) }
{
    let Some((kind, after)) = cut(b' ', text) else {
        return None;
    };
    let Some((rows, after)) = cut(b' ', after) else {
        return None;
    };
    let Some((bytes, after)) = cut(b' ', after) else {
        return None;
    };
    let Some((digest, name)) = cut(b' ', after) else {
        return None;
    };
    Some(Fields {
        kind,
        rows,
        bytes,
        digest,
        name,
    })
}
